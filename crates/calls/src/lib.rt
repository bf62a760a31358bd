// Balance and settle on a sheet, each with a list that the caller lends for the records of moves (document 02, C-14).
#![tactic(auto)]

ghost use Rattle.sheet.specs.Represent.{Sound, book_of};
ghost use Rattle.calls.specs.Lent.{BalanceAnswered, SettleAnswered};

use crate::cores::{Planning, balance_for, settle_for};
use moves::{Move, fill};
use planner::{Balanced, Settled};
use sheet::{Refusal, Sheet};

pub mod cores;

// What balance and settle answer: their figures with the sheet and its new places, and how many records there are.
#[derive(Clone, Copy)]
pub struct Reply<P> {
    pub planned: P,
    pub records: usize,
}

// Balance, which ends before settling. Its records stand at the front of `moves` afterwards, one for each batch whose place differs, and
// entries past them stay. A list with fewer entries than the sheet has batches is 9, and nothing changes.
pub fn balance(sheet: Sheet, moves: &mut [Move]) -> Result<Reply<Balanced>, Refusal>
    requires { Sound sheet }
    ensures { BalanceAnswered (book_of sheet) moves.old result moves.new }
{
    let Planning { reply, change } = balance_for(sheet, moves.len())?;
    fill(moves, change);
    Ok(reply)
}

// Settle, from the standing places, likewise.
// Apart from balance: a common body of two lines would take the core as a closure, and is no plainer.
pub fn settle(sheet: Sheet, moves: &mut [Move]) -> Result<Reply<Settled>, Refusal>
    requires { Sound sheet }
    ensures { SettleAnswered (book_of sheet) moves.old result moves.new }
{
    let Planning { reply, change } = settle_for(sheet, moves.len())?;
    fill(moves, change);
    Ok(reply)
}
