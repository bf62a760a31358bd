// The edits: each changes a sheet or, on a refusal, leaves it as it was.
ghost use Rattle.std.specs.Prelude.{◌+◌, ◌<◌, ◌≤◌, ◌≡◌, length, get_or, take, drop};
ghost use Rattle.rules.specs.Fold.{mem};
ghost use Rattle.rules.specs.Sheet.{size, good_list};
ghost use Rattle.rules.specs.Edit.{kept, add as adding, withdraw as withdrawing, requalify as requalifying, move as moving, start as starting};
ghost use Rattle.theory.proofs.Worklist.{with_row};
ghost use Rattle.sheet.specs.Represent.{Sound, book_of};
ghost use Rattle.sheet.specs.Answers.{EditAnswered, edited_as, left};
ghost use Rattle.sheet.specs.Change.{cut_down, removed, requalified, barred, judged_list};

use crate::{Refusal, Sheet, ascends, enter_part, kept_in, listed, place_or, row_of, within};

impl Sheet {
    // A batch more, at the end, on the first listed.
    pub fn add(&mut self, minutes: u32, list: &[u32]) -> Result<(), Refusal>
        requires { Sound self.old }
        ensures { EditAnswered self.old (adding minutes list.now) result self.new }
    {
        if self.n >= Sheet::BATCHES {
            return Err(Refusal::SheetFull);
        }
        self.with_row(minutes, 0, 0, list)
    }

    // One batch more, the last, judged in the order of a batch line: length, mark, list, its order, place, for which the first listed is taken
    // where it is 0 and the batch has not started.
    pub fn with_row(
        &mut self,
        minutes: u32,
        place: u32,
        mark: u32,
        list: &[u32],
    ) -> Result<(), Refusal>
        requires fact_1 { Sound self.old }
        requires fact_2 { size (book_of self.old) < 200 }
        ensures { left result self.new ≡ edited_as self.old
            (with_row (book_of self.old) (record { minutes = minutes; place = place; mark = mark; list = list.now })) }
    {
        if !within(minutes as usize, Sheet::MINUTES) {
            return Err(Refusal::BadLength);
        }
        if 1 < mark {
            return Err(Refusal::Malformed);
        }
        let row = judged_row(list, self.m)?;
        let count = list.len();
        let p = place_or(place, mark as u8, row[0]);
        if !listed(&row, 0, count, p) {
            return Err(Refusal::BadPlace);
        }
        self.append(minutes as u16, p as u8, mark as u8, count as u8, row);
        Ok(())
    }

    // The batch taken out; the later ones move down by one.
    pub fn withdraw(&mut self, batch: u32) -> Result<(), Refusal>
        requires { Sound self.old }
        ensures { EditAnswered self.old (withdrawing batch) result self.new }
    {
        let at = self.waiting(batch)?;
        self.remove(at);
        Ok(())
    }

    // A new list; the place is kept where it is listed, and is the first listed otherwise.
    pub fn requalify(&mut self, batch: u32, list: &[u32]) -> Result<(), Refusal>
        requires { Sound self.old }
        ensures { EditAnswered self.old (requalifying batch list.now) result self.new }
    {
        let at = self.waiting(batch)?;
        let row = judged_row(list, self.m)?;
        self.enter_list(at, list.len() as u8, row);
        Ok(())
    }

    // Another place of the batch's list.
    pub fn move_to(&mut self, batch: u32, instrument: u32) -> Result<(), Refusal>
        requires { Sound self.old }
        ensures { EditAnswered self.old (moving batch instrument) result self.new }
    {
        let at = self.waiting(batch)?;
        let count = self.counts[at] as usize;
        if !listed(&self.lists, at * Sheet::INSTRUMENTS, count, instrument) {
            return Err(Refusal::BadPlace);
        }
        self.places[at] = instrument as u8;
        Ok(())
    }

    // The batch started where it is.
    pub fn start(&mut self, batch: u32) -> Result<(), Refusal>
        requires { Sound self.old }
        ensures { EditAnswered self.old (starting batch) result self.new }
    {
        let at = self.waiting(batch)?;
        self.started[at] = 1;
        Ok(())
    }

    // The index of batch number b, which may be edited, or why it may not: there is none, or it has started.
    fn waiting(&self, batch: u32) -> Result<usize, Refusal>
        requires { self.now.n ≤ 200 }
        ensures { result ≡ barred self.now.started self.now.n batch }
    {
        let b = batch as usize;
        if !within(b, self.n) {
            return Err(Refusal::NoBatch);
        }
        if self.started[b - 1] != 0 {
            return Err(Refusal::HasStarted);
        }
        Ok(b - 1)
    }

    // The arrays without the batch at the index at.
    fn remove(&mut self, at: usize)
        requires { (at < 200) × (0 < self.old.n) }
        ensures { self.new ≡ removed self.old at }
    {
        self.n -= 1;
        shift_down(&mut self.minutes, at, 1, 0);
        shift_down(&mut self.places, at, 1, 0);
        shift_down(&mut self.started, at, 1, 0);
        shift_down(&mut self.counts, at, 1, 0);
        let width = Sheet::INSTRUMENTS;
        shift_down(&mut self.lists, at * width, width, 0);
    }

    // The batch at the index at with another list, whose count instruments stand at the front of row.
    fn enter_list(&mut self, at: usize, count: u8, row: [u8; 24])
        requires { (at < 200) × (0 < count) × (count ≤ 24) }
        ensures { self.new
            ≡ requalified self.old at (kept (get_or self.old.places at 0) (take count row)) count row }
    {
        self.places[at] = kept_in(&row, 0, count as usize, self.places[at]);
        self.counts[at] = count;
        enter_part(
            &mut self.lists,
            at * Sheet::INSTRUMENTS,
            &row,
            Sheet::INSTRUMENTS,
        );
    }
}

// The row of a list that a batch may have on m instruments, or why it may not have it: first for what it names, and then for its order.
fn judged_row(list: &[u32], m: usize) -> Result<[u8; 24], Refusal>
    requires { m ≤ 24 }
    ensures { result ≡ judged_list m list.now }
{
    if !good_list(list, m) {
        return Err(Refusal::BadList);
    }
    let row = row_of(list);
    if !ascends(&row, list.len()) {
        return Err(Refusal::BadOrder);
    }
    Ok(row)
}

// A list that a batch may have on m instruments. A long one is refused before repeats are looked for.
fn good_list(list: &[u32], m: usize) -> bool
    ensures { result ≡ good_list m list.now }
{
    if !within(list.len(), m) {
        return false;
    }
    for (i, x) in list.iter().enumerate() {
        if !within(*x as usize, m) || list[i + 1..].contains(x) {
            return false;
        }
    }
    true
}

// The entries from at + by on move down by by; the last ones become none.
fn shift_down<T: Copy>(a: &mut [T], at: usize, by: usize, none: T)
    requires fits { at + by ≤ length a.old }
    requires copied { T.is_infallible none }
    requires same { (y : T) → T.is_clone none y → y ≡ none }
    ensures { a.new ≡ cut_down none at by a.old }
{
    let end = a.len() - by;
    a.copy_within(at + by.., at);
    a[end..].fill(none);
}
