// Balance and settle for a caller whose list has so many entries: the reply, and the change from which the list is filled.
ghost use Rattle.rules.specs.Run.{answer, balancing, settling};
ghost use Rattle.sheet.specs.Represent.{Sound, book_of};
ghost use Rattle.calls.specs.Lent.{balance_reply, settle_reply, PlanningIs};

use crate::Reply;
use moves::{Change, count};
use planner::calls::{balance, settle};
use planner::{Balanced, Settled};
use sheet::{Refusal, Sheet};

#[derive(Clone, Copy)]
pub struct Planning<P> {
    pub reply: Reply<P>,
    pub change: Change,
}

// A list with fewer entries than the sheet has batches is refused.
pub fn balance_for(sheet: Sheet, entries: usize) -> Result<Planning<Balanced>, Refusal>
    requires { Sound sheet }
    ensures { PlanningIs (balance_reply (book_of sheet) entries) (answer (book_of sheet) (balancing entries)) entries result }
{
    let n = sheet.batches();
    if entries < n {
        return Err(Refusal::BufferShort);
    }
    let planned = balance(sheet);
    let change = Change {
        old: sheet.places(),
        new: planned.sheet.places(),
        n,
    };
    let records = count(change);
    Ok(Planning {
        reply: Reply { planned, records },
        change,
    })
}

// The same for settle: a generic core needs a trait for the sheet in what the planner answers, and is longer than both.
pub fn settle_for(sheet: Sheet, entries: usize) -> Result<Planning<Settled>, Refusal>
    requires { Sound sheet }
    ensures { PlanningIs (settle_reply (book_of sheet) entries) (answer (book_of sheet) (settling entries)) entries result }
{
    let n = sheet.batches();
    if entries < n {
        return Err(Refusal::BufferShort);
    }
    let planned = settle(sheet);
    let change = Change {
        old: sheet.places(),
        new: planned.sheet.places(),
        n,
    };
    let found = count(change);
    Ok(Planning {
        reply: Reply {
            planned,
            records: found,
        },
        change,
    })
}
