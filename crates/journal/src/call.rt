// Making the call of a journal's line, with the answer as numbers.
ghost use Rattle.std.specs.Prelude.{◌+◌, ◌*◌, ◌≤◌, ◌≡◌, true, false, [], ◌∷◌, ◌++◌, length, take};
ghost use Rattle.std.proofs.Math.Seq.{paste};
ghost use Rattle.rules.specs.Run.{balancing, settling};
ghost use Rattle.sheet.specs.Represent.{Sound, book_of};
ghost use Rattle.sheet.specs.Answers.{number_of, edit_numbers};
ghost use Rattle.journal.specs.Answering.{Whole, CountStands, TrialStands, call_said, answer_with, said, made_with, made_of, review_numbers, trial_numbers, balanced_numbers, moves_numbers, change_numbers};

use crate::answer::Answer;
use crate::entry::Call;
use moves::{Change, count};
use planner::calls::{balance, review, settle, trial};
use planner::{Balanced, Outcome, Reviewed, Settled, Tried};
use scans::group::Members;
use sheet::{Refusal, Sheet};

// The answer that is a refusal.
fn of_refusal(refusal: Refusal) -> Answer
    ensures { result ≡ answer_with (number_of refusal ∷ []) false }
{
    Answer::of(false, &[u64::from(u32::from(refusal))])
}

// The answer to an edit.
fn of_edit(edited: Result<(), Refusal>) -> Answer
    ensures { result ≡ answer_with (edit_numbers edited) false }
{
    match edited {
        Ok(()) => Answer::of(false, &[0]),
        Err(refusal) => of_refusal(refusal),
    }
}

// The answer to a review of a sheet of m instruments.
fn of_review(v: Reviewed, m: usize) -> Answer
    requires { (m ≤ 24) × (m ≤ length v.loads) }
    ensures { result ≡ answer_with (review_numbers m v) false }
{
    let improving = v.improving.unwrap_or(0) as u64;
    let mut answer = Answer::of(false, &[0, u64::from(v.makespan), improving]);
    answer.extend(&v.loads[..m]);
    answer
}

// The answer to a trial that was not refused: 1 for a pass, 0 for a failure, its counts, and a list.
fn of_tried(passed: u64, lifts: u32, pushes: u32, list: &[u8]) -> Answer
    requires { length list.now ≤ 200 }
    ensures { result ≡ answer_with (0 ∷ passed ∷ lifts ∷ pushes ∷ list.now) false }
{
    let mut answer = Answer::of(false, &[0, passed, u64::from(lifts), u64::from(pushes)]);
    answer.extend(list);
    answer
}

// The answer to a trial of a sheet of n batches.
fn of_trial(tried: Result<Tried, Refusal>, n: usize) -> Answer
    requires { (n ≤ 200) × TrialStands n tried }
    ensures { result ≡ answer_with (trial_numbers n tried) false }
{
    match tried {
        Ok(t) => match t.outcome {
            Outcome::Passed(places) => of_tried(1, t.lifts, t.pushes, &places[..n]),
            Outcome::Failed(group) => of_tried(0, t.lifts, t.pushes, &group.list[..group.size]),
        },
        Err(refusal) => of_refusal(refusal),
    }
}

// Adds three numbers for each record.
fn add_moves(answer: &mut Answer, c: Change)
    requires { (c.n ≤ 200) × (answer.old.size + 3 * c.n ≤ 632) × Whole answer.old }
    ensures { answer.new ≡ answer_with (said answer.old ++ moves_numbers c) answer.old.settle }
{
    for b in 0..c.n {
        let old = u64::from(c.old[b]);
        let new = u64::from(c.new[b]);
        if old != new {
            answer.extend(&[b as u64 + 1, old, new]);
        }
    }
}

// Adds how many records there are, and those.
fn add_records(answer: &mut Answer, c: Change)
    requires { (c.n ≤ 200) × (answer.old.size + (1 + 3 * c.n) ≤ 632) × Whole answer.old }
    ensures { answer.new ≡ answer_with (said answer.old ++ change_numbers c) answer.old.settle }
{
    answer.extend(&[count(c) as u64]);
    add_moves(answer, c);
}

// The answer to balance.
fn of_balanced(b: Balanced, c: Change) -> Answer
    requires { (b.group.size ≤ 24) × (length b.group.list ≡ 24) × (c.n ≤ 200) }
    ensures { result ≡ answer_with (balanced_numbers b ++ change_numbers c) false }
{
    let Members { list, size } = b.group;
    let mut answer = Answer::of(
        false,
        &[
            0,
            u64::from(b.makespan),
            u64::from(b.bound),
            u64::from(b.level),
            u64::from(b.lifts),
            u64::from(b.pushes),
            size as u64,
        ],
    );
    answer.extend(&list[..size]);
    add_records(&mut answer, c);
    answer
}

// Balances a sheet, where the caller's list has so many entries. Balance and settle answer other figures, so each has a function.
fn make_balance(sheet: &mut Sheet, entries: usize) -> Answer
    requires { Sound sheet.old }
    ensures { made_with result sheet.new ≡ made_of (book_of sheet.old) (balancing entries) }
{
    let n = sheet.batches();
    if entries < n {
        return of_refusal(Refusal::BufferShort);
    }
    let b = balance(*sheet);
    let old = sheet.places();
    *sheet = b.sheet;
    let new = sheet.places();
    of_balanced(b, Change { old, new, n })
}

// The answer to settle.
fn of_settled(z: Settled, c: Change) -> Answer
    requires { c.n ≤ 200 }
    ensures { result ≡ answer_with (0 ∷ z.makespan ∷ z.moves ∷ change_numbers c) true }
{
    let mut answer = Answer::of(true, &[0, u64::from(z.makespan), z.moves]);
    add_records(&mut answer, c);
    answer
}

// Settles a sheet, likewise.
fn make_settle(sheet: &mut Sheet, entries: usize) -> Answer
    requires { Sound sheet.old }
    ensures { made_with result sheet.new ≡ made_of (book_of sheet.old) (settling entries) }
{
    let n = sheet.batches();
    if entries < n {
        return of_refusal(Refusal::BufferShort);
    }
    let z = settle(*sheet);
    let old = sheet.places();
    *sheet = z.sheet;
    let new = sheet.places();
    of_settled(z, Change { old, new, n })
}

// Makes a call on a sheet.
pub fn make(sheet: &mut Sheet, call: Call) -> Answer
    requires { Sound sheet.old × CountStands call }
    ensures { made_with result sheet.new ≡ made_of (book_of sheet.old) (call_said call) }
{
    match call {
        Call::Add { minutes, list } => of_edit(sheet.add(minutes, list.kept())),
        Call::Withdraw(batch) => of_edit(sheet.withdraw(batch)),
        Call::Requalify { batch, list } => of_edit(sheet.requalify(batch, list.kept())),
        Call::MoveTo { batch, instrument } => of_edit(sheet.move_to(batch, instrument)),
        Call::Start(batch) => of_edit(sheet.start(batch)),
        Call::Review => of_review(review(*sheet), sheet.instruments()),
        Call::Trial(level) => of_trial(trial(*sheet, level), sheet.batches()),
        Call::Balance(entries) => make_balance(sheet, entries as usize),
        Call::Settle(entries) => make_settle(sheet, entries as usize),
    }
}
