// What a sheet holds, in arrays, and other places entered.
ghost use Rattle.std.specs.Prelude.{ℕ, ◌+◌, ◌<◌, ◌≤◌, ◌≡◌, map, length, get_or, take, drop, replicate};
ghost use Rattle.std.proofs.Math.Seq.{paste};
ghost use Rattle.rules.specs.Sheet.{Batch, size};
ghost use Rattle.rules.specs.Marks.{marks_of};
ghost use Rattle.rules.specs.Render.{mark};
ghost use Rattle.rules.specs.Run.{with_places};
ghost use Rattle.sheet.specs.Represent.{Sound, padded, rows, book_of, sheet_of};
ghost use Rattle.sheet.specs.View.{mark_rows, kept_places};

use crate::{Sheet, kept_in};

impl Sheet {
    // How many instruments.
    pub fn instruments(self) -> usize
        ensures { result ≡ (book_of self).m }
    {
        self.m
    }

    // How many batches.
    pub fn batches(self) -> usize
        ensures { result ≡ size (book_of self) }
    {
        self.n
    }

    // Each instrument's calibration in minutes, 0 for none; 0 past the last instrument.
    pub fn calibrations(self) -> [u8; 24]
        requires { Sound self }
        ensures { result ≡ padded 24 (book_of self).calibrations }
    {
        self.calibrations
    }

    // Each batch's minutes; 0 past the last batch.
    pub fn minutes(self) -> [u16; 200]
        requires { Sound self }
        ensures { result ≡ padded 200 (map (λ (b : Batch). b.minutes) (book_of self).batches) }
    {
        self.minutes
    }

    // Each batch's place; 0 past the last batch.
    pub fn places(self) -> [u8; 200]
        requires { Sound self }
        ensures { result ≡ padded 200 (map (λ (b : Batch). b.place) (book_of self).batches) }
    {
        self.places
    }

    // 1 for each batch that has started; 0 past the last batch.
    pub fn started(self) -> [u8; 200]
        requires { Sound self }
        ensures { result ≡ padded 200 (map (λ (b : Batch). mark b.started) (book_of self).batches) }
    {
        self.started
    }

    // How many instruments each batch's list has; 0 past the last batch.
    pub fn counts(self) -> [u8; 200]
        requires { Sound self }
        ensures { result ≡ padded 200 (map (λ (b : Batch). length b.list) (book_of self).batches) }
    {
        self.counts
    }

    // The lists, batch b's from 24 (b - 1) on; 0 past the end of each.
    pub fn lists(self) -> [u8; 4800]
        requires { Sound self }
        ensures { result ≡ padded 4800 (rows (book_of self).batches) }
    {
        self.lists
    }

    // 1 at 24 (b - 1) + (i - 1) where instrument i counts as qualified for batch b, which for a started one is its place alone; 0
    // elsewhere.
    pub fn eligibility(self) -> [u8; 4800]
        requires { Sound self }
        ensures { result ≡ padded 4800 (mark_rows (book_of self).batches) }
    {
        let mut marks = [0u8; 4800];
        for i in 0..self.n {
            if self.started[i] == 0 {
                mark_row(
                    &mut marks,
                    i * Sheet::INSTRUMENTS,
                    &self.lists,
                    self.counts[i] as usize,
                );
            } else {
                let p = self.places[i] as usize;
                marks[i * Sheet::INSTRUMENTS + (p - 1)] = 1;
            }
        }
        marks
    }

    // Each batch that has not started on its place in x where its list has that, and on the first listed otherwise; each other where it is.
    // Its frame has two sheets: apart, they do not stand beneath a planning.
    #[inline(never)]
    pub fn with_places(mut self, x: [u8; 200]) -> Sheet
        requires { Sound self }
        ensures { (result ≡ sheet_of (with_places (book_of self) (kept_places (book_of self) x))) × Sound result }
    {
        let mut places = self.places;
        for b in 0..self.n {
            if self.started[b] == 0 {
                places[b] = kept_in(
                    &self.lists,
                    b * Sheet::INSTRUMENTS,
                    self.counts[b] as usize,
                    x[b],
                );
            }
        }
        self.places = places;
        self
    }
}

// Of the 24 entries from at on, all 0, those of the count instruments that lists names from at on become 1.
fn mark_row(marks: &mut [u8], at: usize, lists: &[u8], count: usize)
    requires fact_1 { at + 24 ≤ length marks.old }
    requires fact_2 { paste marks.old at (replicate 24 0) 24 ≡ marks.old }
    requires fact_3 { at + count ≤ length lists.now }
    requires fact_4 { ((k : ℕ) → k < count → (0 < get_or lists.now (at + k) 0) × (get_or lists.now (at + k) 0 ≤ 24)) }
    ensures { marks.new ≡ paste marks.old at (marks_of (take count (drop at lists.now))) 24 }
{
    for x in &lists[at..at + count] {
        marks[at + (*x as usize - 1)] = 1;
    }
}
