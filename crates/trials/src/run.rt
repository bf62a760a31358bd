// A trial from its start to its end.
ghost use Rattle.std.specs.Prelude.{◌≤◌, length, take};
ghost use Rattle.rules.specs.Instance.{Instance};
ghost use Rattle.rules.specs.Trial.{Limits};
ghost use Rattle.trials.specs.Track.{Starts, Ends};

use crate::step::step;
use crate::{Bounds, State};
use arrays::{JOBS, Jobs, MACHINES, Placement};
use scans::scan::first_waiting;
use std::ops::ControlFlow;

// From this placement, with a low and a high limit for each machine: steps until nothing acts.
pub fn run(start: Placement, jobs: &Jobs, bounds: &Bounds) -> State
    requires starts { (I : Instance) × (a : Limits) × Starts I a jobs.now bounds.now start }
    requires bounded { (jobs.now.m ≤ length bounds.now.low.now) × (jobs.now.m ≤ length bounds.now.high.now) }
    ensures { (I : Instance) (a : Limits) → Starts I a jobs.now bounds.now start → Ends I a (take jobs.now.n start.places) result }
{
    let mut s = State {
        machines: [0; MACHINES],
        jobs: [0; JOBS],
        placement: start,
        lifts: 0,
        pushes: 0,
        waiting: first_waiting(&start.places, jobs.masks, 0, jobs.n),
    };
    loop {
        match step(s, jobs, bounds) {
            ControlFlow::Continue(next) => s = next,
            ControlFlow::Break(end) => return end,
        }
    }
}
