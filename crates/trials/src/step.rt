// One step of a trial: one push or one lift.
ghost use Rattle.std.specs.Prelude.{◌<◌, ◌≤◌, length};
ghost use Rattle.rules.specs.Instance.{Instance};
ghost use Rattle.rules.specs.Trial.{Limits};
ghost use Rattle.trials.specs.Track.{JobActs, MachineActs, Trying, Moved, Stepped};

use crate::{Bounds, State};
use arrays::Jobs;
use scans::scan::{
    first_able, job_below, least_job, least_machine, machine_below, some_underloaded,
};
use std::ops::ControlFlow;

// The lowest job that waits, `b` by index, goes to a machine just below it, or is lifted.
fn job_step(mut t: State, jobs: &Jobs, b: usize) -> State
    requires within { b < jobs.now.n }
    requires acts { (I : Instance) × (a : Limits) × JobActs I a jobs.now t b }
    ensures { (I : Instance) (a : Limits) → JobActs I a jobs.now t b → Moved I a jobs.now t result }
{
    let mask = jobs.masks[b];
    if let Some(i) = machine_below(&t.machines, mask, jobs.m, t.jobs[b]) {
        return t.place(jobs, b, i);
    }
    // It waits, so some machine may run it.
    let lowest = least_machine(&t.machines, mask, jobs.m).unwrap();
    t.jobs[b] = t.machines[lowest] + 1;
    t.lifts += 1;
    t
}

// Machine `i`, by index, that may act, takes a job just below it off, or is lifted.
fn machine_step(mut t: State, jobs: &Jobs, i: usize) -> State
    requires within { i < 24 }
    requires acts { (I : Instance) × (a : Limits) × MachineActs I a jobs.now t i }
    ensures { (I : Instance) (a : Limits) → MachineActs I a jobs.now t i → Moved I a jobs.now t result }
{
    let number = (i + 1) as u8;
    if let Some(b) = job_below(&t.placement.places, &t.jobs, jobs.n, number, t.machines[i]) {
        return t.take_off(jobs, b, i);
    }
    // It is overloaded, so some job is on it.
    let lowest = least_job(&t.placement.places, &t.jobs, jobs.n, number).unwrap();
    t.machines[i] = t.jobs[lowest] + 1;
    t.lifts += 1;
    t
}

// One step: the lowest job that waits acts, or else the lowest machine that may. The trial goes on from the state after it, and
// breaks off with the state where nothing acts.
pub fn step(t: State, jobs: &Jobs, bounds: &Bounds) -> ControlFlow<State, State>
    requires trying { (I : Instance) × (a : Limits) × Trying I a jobs.now bounds.now t }
    requires bounded { (jobs.now.m ≤ length bounds.now.low.now) × (jobs.now.m ≤ length bounds.now.high.now) }
    ensures { (I : Instance) (a : Limits) → Trying I a jobs.now bounds.now t → Stepped I a jobs.now t result }
{
    if !some_underloaded(&t.placement.loads, bounds.low, jobs.m) {
        return ControlFlow::Break(t);
    }
    if let Some(b) = t.waiting {
        return ControlFlow::Continue(job_step(t, jobs, b));
    }
    let top = (2 * jobs.m) as u8;
    match first_able(&t.placement.loads, &t.machines, bounds.high, jobs.m, top) {
        Some(i) => ControlFlow::Continue(machine_step(t, jobs, i)),
        None => ControlFlow::Break(t),
    }
}
