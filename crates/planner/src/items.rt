// What takes time on a sheet, in arrays: its batches, and after them each calibration above 0, which may run on its instrument alone.
ghost use Rattle.std.specs.Prelude.{◌≡◌, List, ◌++◌, ◌≤◌};
ghost use Rattle.rules.specs.Sheet.{Batch};
ghost use Rattle.rules.specs.Instance.{calibrations_to, items};
ghost use Rattle.sheet.specs.Represent.{Sound, book_of};
ghost use Rattle.planner.specs.Items.{items_of};

use arrays::{JOBS, MACHINES, MARKS};
use sheet::Sheet;

// How many items; each one's minutes, its place, and 24 marks, 1 for each instrument that may run it. Arrays and a count, since the planner
// has no heap.
#[derive(Clone, Copy)]
pub struct Items {
    pub n: usize,
    pub minutes: [u16; JOBS],
    pub places: [u8; JOBS],
    pub marks: [u8; MARKS],
}

// One item more for each of the first m instruments whose calibration is above 0.
fn with_calibrations(start: Items, calibrations: [u8; MACHINES], m: usize) -> Items
    requires { (start.n ≤ 200) × (m ≤ 24) }
    ensures { (bs : List Batch) → start ≡ items_of bs → result ≡ items_of (bs ++ calibrations_to calibrations m) }
{
    let Items {
        mut n,
        mut minutes,
        mut places,
        mut marks,
    } = start;
    for (i, t) in calibrations[..m].iter().enumerate() {
        if *t != 0 {
            minutes[n] = u16::from(*t);
            places[n] = (i + 1) as u8;
            marks[n * MACHINES + i] = 1;
            n += 1;
        }
    }
    Items {
        n,
        minutes,
        places,
        marks,
    }
}

// The items of a sheet: each of its arrays in one with room for the calibrations, and those.
pub fn items_of(sheet: Sheet) -> Items
    requires { Sound sheet }
    ensures { result ≡ items_of (items (book_of sheet)) }
{
    // Each array of the sheet under a name of its own: lent as it came, they made the most stack of a call 5,400 bytes more.
    let lengths = sheet.minutes();
    let mut minutes = [0u16; JOBS];
    minutes[..200].copy_from_slice(&lengths);
    let stands = sheet.places();
    let mut places = [0u8; JOBS];
    places[..200].copy_from_slice(&stands);
    let eligible = sheet.eligibility();
    let mut marks = [0u8; MARKS];
    marks[..4800].copy_from_slice(&eligible);
    let batches = Items {
        n: sheet.batches(),
        minutes,
        places,
        marks,
    };
    with_calibrations(batches, sheet.calibrations(), sheet.instruments())
}
