// A plan: balance, and settle straight after it.
ghost use Rattle.sheet.specs.Represent.{Sound, book_of};
ghost use Rattle.listing.specs.Planned.{IsPlanOf};

use planner::calls::{balance, settle};
use planner::{Balanced, Settled};
use sheet::Sheet;

// Of a plan the makespan, the moves and the sheet are settle's, and the rest is balance's.
#[derive(Clone, Copy)]
pub(crate) struct Planned {
    pub(crate) balanced: Balanced,
    pub(crate) settled: Settled,
}

pub(crate) fn plan(sheet: Sheet) -> Planned
    requires { Sound sheet }
    ensures { IsPlanOf (book_of sheet) result }
{
    let balanced = balance(sheet);
    let settled = settle(balanced.sheet);
    Planned { balanced, settled }
}
