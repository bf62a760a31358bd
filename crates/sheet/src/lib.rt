// The sheet: m instruments with their calibrations, and up to 200 batches, and its edits.
#![tactic(auto)]

ghost use Rattle.std.specs.Prelude.{◌≡◌, not, ℕ, ◌+◌, ◌<◌, ◌≤◌, leb, eqb, length, get_or, take, drop};
ghost use Rattle.std.proofs.Math.Seq.{paste};
ghost use Rattle.rules.specs.Fold.{◌and◌, mem, pick};
ghost use Rattle.rules.specs.Sheet.{ascending};
ghost use Rattle.rules.specs.Edit.{kept};
ghost use Rattle.sheet.specs.Represent.{padded, appended, held, empty, blank};
ghost use Rattle.sheet.specs.Answers.{number_of, fault};

pub mod bare;
pub mod edit;
pub mod view;

// The documents' refusals, by name.
#[derive(Clone, Copy, Debug, PartialEq, Eq)]
pub enum Refusal {
    Malformed,
    BadSize,
    BadLength,
    BadList,
    BadPlace,
    NoBatch,
    SheetFull,
    LevelAbove,
    BufferShort,
    BadCalibration,
    HasStarted,
    BadWorklist,
    BadOrder,
    BadJournal,
}

// A refusal's number.
impl From<Refusal> for u32 {
    ghost from_gives = { λ refusal number. number ≡ number_of refusal };

    fn from(refusal: Refusal) -> u32 {
        match refusal {
            Refusal::Malformed => 1,
            Refusal::BadSize => 2,
            Refusal::BadLength => 3,
            Refusal::BadList => 4,
            Refusal::BadPlace => 5,
            Refusal::NoBatch => 6,
            Refusal::SheetFull => 7,
            Refusal::LevelAbove => 8,
            Refusal::BufferShort => 9,
            Refusal::BadCalibration => 10,
            Refusal::HasStarted => 11,
            Refusal::BadWorklist => 12,
            Refusal::BadOrder => 13,
            Refusal::BadJournal => 19,
        }
    }
}

// A refusal of a text, with its line; 0 where it is none of the text's.
#[derive(Clone, Copy, Debug, PartialEq, Eq)]
pub struct Fault {
    pub refusal: Refusal,
    pub line: usize,
}

// One of the host's has no line.
impl From<Refusal> for Fault {
    ghost from_gives = { λ refusal given. given ≡ fault refusal 0 };

    fn from(refusal: Refusal) -> Fault {
        Fault { refusal, line: 0 }
    }
}

// `Sound` is no invariant of this type: `new`, `empty`, `of_arrays` and `append` promise sheets that are not sound. Numbers, arrays and a count:
// `of_arrays` takes them so, and nothing is on the heap.
//
// What a sheet holds, in arrays: a calibration for each instrument, 0 for none, and the batches, 1 in started for each that has started;
// batch b's list starts at 24 (b - 1) in lists. Whatever is not used is 0.
#[derive(Clone, Copy)]
pub struct Sheet {
    m: usize,
    n: usize,
    calibrations: [u8; 24],
    minutes: [u16; 200],
    places: [u8; 200],
    started: [u8; 200],
    counts: [u8; 200],
    lists: [u8; 4800],
}

impl Sheet {
    pub const INSTRUMENTS: usize = 24;

    pub const BATCHES: usize = 200;

    pub const MINUTES: usize = 1440;

    pub const CALIBRATION: usize = 240;

    // The blank value, which is no sheet: it has no instrument.
    pub fn new() -> Self
        ensures { result ≡ blank }
    {
        Self::empty(0, [0u8; 24])
    }

    // That of m instruments with these calibrations, and no batch.
    pub fn empty(m: usize, calibrations: [u8; 24]) -> Self
        ensures { result ≡ empty m calibrations }
    {
        Self::of_arrays(
            m,
            0,
            calibrations,
            [0; 200],
            [0; 200],
            [0; 200],
            [0; 200],
            [0; 4800],
        )
    }

    // The sheet that these arrays make.
    pub fn of_arrays(
        m: usize,
        n: usize,
        calibrations: [u8; 24],
        minutes: [u16; 200],
        places: [u8; 200],
        started: [u8; 200],
        counts: [u8; 200],
        lists: [u8; 4800],
    ) -> Self
        ensures { result ≡ held m n calibrations minutes places started counts lists }
    {
        Self {
            m,
            n,
            calibrations,
            minutes,
            places,
            started,
            counts,
            lists,
        }
    }

    // One batch more, the last; its list stands at the front of row.
    pub fn append(&mut self, minutes: u16, place: u8, started: u8, count: u8, row: [u8; 24])
        requires { self.old.n < 200 }
        ensures { self.new ≡ appended self.old minutes place started count row }
    {
        let n = self.n;
        self.minutes[n] = minutes;
        self.places[n] = place;
        self.started[n] = started;
        self.counts[n] = count;
        enter_part(
            &mut self.lists,
            n * Sheet::INSTRUMENTS,
            &row,
            Sheet::INSTRUMENTS,
        );
        self.n = n + 1;
    }
}

// The count entries from at on become the first of part.
// Kept as a function: a public one, whose promise (`paste`) its callers' proofs cite.
pub fn enter_part(a: &mut [u8], at: usize, part: &[u8], count: usize)
    requires fact_1 { at + count ≤ length a.old }
    requires fact_2 { count ≤ length part.now }
    ensures { a.new ≡ paste a.old at part.now count }
{
    a[at..at + count].copy_from_slice(&part[..count]);
}

// The count entries from from on name x.
pub fn listed(lists: &[u8], from: usize, count: usize, x: u32) -> bool
    requires { from + count ≤ length lists.now }
    ensures { result ≡ mem x (take count (drop from lists.now)) }
{
    match u8::try_from(x) {
        Ok(x) => lists[from..from + count].contains(&x),
        Err(_) => false,
    }
}

// None of the first count entries is smaller than the one before it.
pub fn ascends(list: &[u8], count: usize) -> bool
    requires { count ≤ length list.now }
    ensures { result ≡ ascending (take count list.now) }
{
    list[..count].is_sorted()
}

// The place where the count entries from from on name it, and the first of them otherwise.
fn kept_in(lists: &[u8], from: usize, count: usize, place: u8) -> u8
    requires { (0 < count) × (from + count ≤ length lists.now) }
    ensures { result ≡ kept place (take count (drop from lists.now)) }
{
    if listed(lists, from, count, u32::from(place)) {
        place
    } else {
        lists[from]
    }
}

// x is one of 1 to k.
pub fn within(x: usize, k: usize) -> bool
    ensures { result ≡ leb 1 x and leb x k }
{
    1 <= x && x <= k
}

// A list as a row of a sheet.
fn row_of(list: &[u32]) -> [u8; 24]
    requires fact_1 { length list.now ≤ 24 }
    requires fact_2 { ((i : ℕ) → i < length list.now → get_or list.now i 0 < 256) }
    ensures { result ≡ padded 24 list.now }
{
    let mut row = [0u8; 24];
    for (i, x) in list.iter().enumerate() {
        row[i] = *x as u8;
    }
    row
}

// The place p, or the first listed where p is 0 and the batch has not started.
pub fn place_or(p: u32, started: u8, first: u8) -> u32
    ensures { result ≡ pick (not (eqb started 1) and eqb p 0) first p }
{
    if started != 1 && p == 0 {
        u32::from(first)
    } else {
        p
    }
}
