// A sheet in arrays, as review, trials, balance and settle need it: its batches and its calibrations above 0.
ghost use Rattle.std.specs.Prelude.{◌≤◌};
ghost use Rattle.sheet.specs.Represent.{Sound, book_of};
ghost use Rattle.planner.specs.Laid.{JobsOf, Lays};

use crate::items::items_of;
use arrays::scan::loads_of;
use arrays::sets::masks_of;
use arrays::{JOBS, Jobs, MARKS, Placement};
use sheet::Sheet;

// How many machines and jobs; each job's minutes, and the machines that it may run on as a set and as marks; and where the jobs stand,
// with loads of 0 past the last machine.
// The arrays that `Jobs` lends: a struct cannot lend from itself. Nothing is on the heap.
#[derive(Clone, Copy)]
pub struct Laid {
    m: usize,
    n: usize,
    minutes: [u16; JOBS],
    masks: [u32; JOBS],
    pub marks: [u8; MARKS],
    pub start: Placement,
}

impl Laid {
    // The jobs, lent from the arrays.
    pub fn jobs(&self) -> Jobs<'_>
        requires { (self.now.m ≤ 24) × (self.now.n ≤ 224) }
        ensures { JobsOf self.now result }
    {
        Jobs {
            m: self.m,
            n: self.n,
            minutes: &self.minutes,
            masks: &self.masks,
        }
    }
}

pub fn lay(sheet: Sheet) -> Laid
    requires { Sound sheet }
    ensures { Lays (book_of sheet) result }
{
    let m = sheet.instruments();
    let a = items_of(sheet);
    // Each array under a name of its own: read from `a` below, they made the most stack of a call 5,600 bytes more.
    let minutes = a.minutes;
    let places = a.places;
    let marks = a.marks;
    let masks = masks_of(&marks, a.n, m);
    let loads = loads_of(&minutes, &places, a.n, m);
    Laid {
        m,
        n: a.n,
        minutes,
        masks,
        marks,
        start: Placement { places, loads },
    }
}
