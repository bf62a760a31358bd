// Balance and settle over arrays, with the figures that they answer.
ghost use Rattle.std.specs.Prelude.{◌*◌, ◌≤◌, length, take};
ghost use Rattle.rules.specs.Instance.{Instance};
ghost use Rattle.scans.specs.Marks.{Marked};
ghost use Rattle.trials.specs.Attempt.{Standing};
ghost use Rattle.planner.specs.Drawing.{Draws, Rests};

use crate::balance::balance;
use arrays::scan::{largest_load, longest_of};
use arrays::{JOBS, Jobs, Placement};
use scans::group::{Members, bound_of, members_of};
use scans::marks::marks_of;
use settling::settle::settle;

// What balance answers, and the places that it leaves.
#[derive(Clone, Copy)]
pub struct Drawn {
    pub makespan: u32,
    pub bound: u32,
    pub level: u32,
    pub lifts: u32,
    pub pushes: u32,
    pub group: Members,
    pub places: [u8; JOBS],
}

// Balance from where the jobs stand; `marks` are those of their lists.
pub fn draw(jobs: &Jobs, marks: &[u8], start: Placement) -> Drawn
    requires standing { (I : Instance) × Standing I jobs.now start × Marked I jobs.now.n marks.now }
    requires n_in_bounds { jobs.now.n * 24 ≤ length marks.now }
    ensures { (I : Instance) → Standing I jobs.now start → Marked I jobs.now.n marks.now
        → Draws I jobs.now.n (take jobs.now.n start.places) result }
{
    let most = longest_of(jobs.minutes, jobs.n);
    let highest = largest_load(&start.loads, jobs.m);
    let s = balance(jobs, start, most, highest);
    let set = s.group();
    let group = members_of(set, jobs.m);
    let bound = bound_of(
        most,
        jobs.minutes,
        marks,
        jobs.n,
        &marks_of(set),
        group.size as u32,
    );
    Drawn {
        makespan: largest_load(&s.kept.loads, jobs.m),
        bound,
        level: s.level,
        lifts: s.lifts,
        pushes: s.pushes,
        group,
        places: s.kept.places,
    }
}

// What settle answers, and the places that it leaves.
#[derive(Clone, Copy)]
pub struct Rested {
    pub makespan: u32,
    pub moves: u64,
    pub places: [u8; JOBS],
}

// Settle from where the jobs stand.
pub fn rest(jobs: &Jobs, start: Placement) -> Rested
    requires { (I : Instance) × Standing I jobs.now start }
    ensures { (I : Instance) → Standing I jobs.now start → Rests I jobs.now.n (take jobs.now.n start.places) result }
{
    let z = settle(jobs, start);
    Rested {
        makespan: largest_load(&z.end.loads, jobs.m),
        moves: z.moves,
        places: z.end.places,
    }
}
