// A trial at a level: pass or failure, and the group of a failure.
ghost use Rattle.std.specs.Prelude.{◌≡◌, ◌+◌, take};
ghost use Rattle.rules.specs.Instance.{Instance};
ghost use Rattle.rules.specs.Load.{longest};
ghost use Rattle.trials.specs.Attempt.{Standing, Tries};

use crate::Bounds;
use crate::run::run;
use arrays::{Jobs, MACHINES, Placement};
use scans::group::group_of;
use scans::scan::first_overloaded;

// What a trial leaves: its places with their loads, the group of a failure as a set, none after a pass, and its counts.
#[derive(Clone, Copy)]
pub struct Attempt {
    pub end: Placement,
    pub failed: Option<u32>,
    pub lifts: u32,
    pub pushes: u32,
}

// One trial from this placement, at this level, where the limit is the level and the longest length.
pub fn try_level(start: Placement, jobs: &Jobs, level: u32, limit: u32) -> Attempt
    requires { (I : Instance) × Standing I jobs.now start × (limit ≡ level + longest I) }
    ensures { (I : Instance) → Standing I jobs.now start → limit ≡ level + longest I
        → Tries I (take jobs.now.n start.places) level jobs.now.n result }
{
    let low = [level; MACHINES];
    let high = [limit; MACHINES];
    let bounds = Bounds {
        low: &low,
        high: &high,
    };
    let s = run(start, jobs, &bounds);
    let end = s.placement;
    // A match: with `map` the proof of what its closure answers did not close.
    let failed = match first_overloaded(&end.loads, &high, jobs.m) {
        Some(over) => Some(group_of(&end.loads, &end.places, jobs, &low, over)),
        None => None,
    };
    Attempt {
        end,
        failed,
        lifts: s.lifts,
        pushes: s.pushes,
    }
}
