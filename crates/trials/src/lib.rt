// One trial on arrays, a step at a time: each step is one push or one lift. And the group of a failed one.
#![tactic(auto)]

ghost use Rattle.std.specs.Prelude.{◌≡◌, ◌+◌, ◌<◌, ◌≤◌, ◌^◌, get_or};
ghost use Rattle.theory.proofs.View.{None};
ghost use Rattle.scans.specs.Waits.{waits};
ghost use Rattle.trials.specs.Moves.{job_placed, taken_off};

use arrays::{JOBS, Jobs, MACHINES, Placement};
use scans::scan::first_waiting;

pub mod run;
pub mod step;
pub mod trial;

// A low and a high limit of load for each machine.
// Two slices, as long as whoever runs a trial likes: one of pairs would ask more of callers.
#[derive(Clone, Copy)]
pub struct Bounds<'a> {
    pub low: &'a [u32],
    pub high: &'a [u32],
}

// A trial between two steps: the heights of machines and jobs, the places with their loads, the counts, and the lowest job, by
// index, that waits for a place.
#[derive(Clone, Copy)]
pub struct State {
    machines: [u8; MACHINES],
    jobs: [u8; JOBS],
    placement: Placement,
    lifts: u32,
    pushes: u32,
    waiting: Option<usize>,
}

impl State {
    // Job `b`, the lowest that waits, is put on machine `i`: both by index. The next one that waits stands after it.
    fn place(mut self, jobs: &Jobs, b: usize, i: usize) -> State
        requires within { (b < jobs.now.n) × (i < 24) }
        requires room { (get_or self.placement.loads i 0 + get_or jobs.now.minutes.now b 0 < 2 ^ 32) × (self.pushes + 1 < 2 ^ 32) }
        requires none { None b (λ c. waits self.placement.places jobs.now.masks.now c) }
        ensures { result ≡ job_placed self jobs.now b i }
    {
        self.placement.places[b] = (i + 1) as u8;
        self.placement.loads[i] += u32::from(jobs.minutes[b]);
        self.pushes += 1;
        self.waiting = first_waiting(&self.placement.places, jobs.masks, b + 1, jobs.n);
        self
    }

    // Job `b` is taken off machine `i`: both by index. It is the only one that waits.
    fn take_off(mut self, jobs: &Jobs, b: usize, i: usize) -> State
        requires { (b < jobs.now.n) × (i < 24) × (get_or jobs.now.minutes.now b 0 ≤ get_or self.placement.loads i 0) × (self.pushes + 1 < 2 ^ 32) }
        ensures { result ≡ taken_off self jobs.now b i }
    {
        self.placement.places[b] = 0;
        self.placement.loads[i] -= u32::from(jobs.minutes[b]);
        self.pushes += 1;
        self.waiting = Some(b);
        self
    }
}
