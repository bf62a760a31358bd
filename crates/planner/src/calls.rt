// The calls on a sheet: review and one trial at a level, which do not alter it, and the cores of balance and settle, which alter its
// places.
ghost use Rattle.std.specs.Prelude.{◌≡◌, ◌≤◌, take};
ghost use Rattle.sheet.specs.Represent.{Sound, book_of, padded};
ghost use Rattle.planner.specs.Calls.{ReviewAnswered, TrialAnswered, balance_of, settle_of};

use crate::drawn::{draw, rest};
use crate::laid::lay;
use crate::{Balanced, Outcome, Reviewed, Settled, Tried};
use arrays::JOBS;
use arrays::scan::{largest_load, longest_of, total_of};
use scans::group::members_of;
use settling::improve::first_improving;
use sheet::{Refusal, Sheet};
use trials::trial::try_level;

// The first n places, and zeros after them.
// A copy into an array of another size, for which there is no method of the library.
fn front(places: [u8; JOBS], n: usize) -> [u8; 200]
    requires { n ≤ 200 }
    ensures { result ≡ padded 200 (take n places) }
{
    let mut out = [0u8; 200];
    out[..n].copy_from_slice(&places[..n]);
    out
}

// All loads, the makespan, and the lowest batch that improves, none where none does.
pub fn review(sheet: Sheet) -> Reviewed
    requires { Sound sheet }
    ensures { ReviewAnswered (book_of sheet) result }
{
    let a = lay(sheet);
    let jobs = a.jobs();
    Reviewed {
        loads: a.start.loads,
        makespan: largest_load(&a.start.loads, jobs.m),
        improving: first_improving(&jobs, &a.start.places, &a.start.loads).map(|b| b + 1),
    }
}

// One trial at a level; a level above the total minutes is refused.
pub fn trial(sheet: Sheet, level: u32) -> Result<Tried, Refusal>
    requires { Sound sheet }
    ensures { TrialAnswered (book_of sheet) level result }
{
    let a = lay(sheet);
    let jobs = a.jobs();
    if total_of(jobs.minutes, jobs.n) < level {
        return Err(Refusal::LevelAbove);
    }
    let limit = level + longest_of(jobs.minutes, jobs.n);
    let t = try_level(a.start, &jobs, level, limit);
    let outcome = match t.failed {
        Some(group) => Outcome::Failed(members_of(group, jobs.m)),
        None => Outcome::Passed(front(t.end.places, sheet.batches())),
    };
    Ok(Tried {
        outcome,
        lifts: t.lifts,
        pushes: t.pushes,
    })
}

// The search over levels from the standing places: the figures, and the sheet with the places that it leaves, before settling.
pub fn balance(sheet: Sheet) -> Balanced
    requires { Sound sheet }
    ensures { result ≡ balance_of (book_of sheet) }
{
    let a = lay(sheet);
    let d = draw(&a.jobs(), &a.marks, a.start);
    Balanced {
        makespan: d.makespan,
        bound: d.bound,
        level: d.level,
        lifts: d.lifts,
        pushes: d.pushes,
        group: d.group,
        sheet: sheet.with_places(front(d.places, sheet.batches())),
    }
}

// Settling from the standing places: the figures, and the sheet with the places that it leaves.
pub fn settle(sheet: Sheet) -> Settled
    requires { Sound sheet }
    ensures { result ≡ settle_of (book_of sheet) }
{
    let a = lay(sheet);
    let z = rest(&a.jobs(), a.start);
    Settled {
        makespan: z.makespan,
        moves: z.moves,
        sheet: sheet.with_places(front(z.places, sheet.batches())),
    }
}
