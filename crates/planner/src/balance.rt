// The search over levels, by halving: every trial starts from the same places.
ghost use Rattle.std.specs.Prelude.{◌≡◌, ◌+◌, ◌<◌, ◌^◌, take};
ghost use Rattle.rules.specs.Instance.{Instance};
ghost use Rattle.rules.specs.Load.{longest, makespan};
ghost use Rattle.trials.specs.Attempt.{Standing};
ghost use Rattle.planner.specs.Search.{failed1, failed_set, halfway, learned, Sought};

use arrays::{Jobs, Placement};
use trials::trial::{Attempt, try_level};

// A level that failed, and its group as a set.
#[derive(Clone, Copy)]
pub struct Failure {
    pub level: u32,
    pub group: u32,
}

// The highest level known to fail, none while none has failed; the level kept, with where its trial ended and its counts; and where every
// trial starts.
#[derive(Clone, Copy)]
pub struct Search {
    pub failed: Option<Failure>,
    pub level: u32,
    pub kept: Placement,
    pub lifts: u32,
    pub pushes: u32,
    pub start: Placement,
}

impl Search {
    // The lowest level that is not known to fail.
    fn lowest(&self) -> u32
        requires { failed1 self.now.failed < 2 ^ 32 }
        ensures { result ≡ failed1 self.now.failed }
    {
        match self.failed {
            Some(failure) => failure.level + 1,
            None => 0,
        }
    }

    // The level halfway from there to the one kept; none where no level is left between them.
    fn halfway(&self) -> Option<u32>
        requires { failed1 self.now.failed + self.now.level < 2 ^ 32 }
        ensures { result ≡ halfway self.now }
    {
        let lowest = self.lowest();
        if lowest < self.level {
            Some((lowest + self.level - 1) / 2)
        } else {
            None
        }
    }

    // The machines of the group of the highest failed level, none while none has failed.
    pub fn group(&self) -> u32
        ensures { result ≡ failed_set self.now.failed }
    {
        match self.failed {
            Some(failure) => failure.group,
            None => 0,
        }
    }

    // What a trial at level a adds.
    fn learn(self, a: u32, t: Attempt) -> Search
        ensures { result ≡ learned self a t }
    {
        match t.failed {
            Some(group) => Search {
                failed: Some(Failure { level: a, group }),
                ..self
            },
            None => Search {
                level: a,
                kept: t.end,
                lifts: t.lifts,
                pushes: t.pushes,
                ..self
            },
        }
    }
}

// From a placement of this makespan until no level is left between the highest failed and the one kept.
pub fn balance(jobs: &Jobs, start: Placement, most: u32, highest: u32) -> Search
    requires { (I : Instance) × Standing I jobs.now start × (most ≡ longest I) × (highest ≡ makespan I (take jobs.now.n start.places)) }
    ensures { (I : Instance) → Standing I jobs.now start → most ≡ longest I → highest ≡ makespan I (take jobs.now.n start.places)
        → Sought I jobs.now (take jobs.now.n start.places) result }
{
    let mut s = Search {
        failed: None,
        level: highest,
        kept: start,
        lifts: 0,
        pushes: 0,
        start,
    };
    while let Some(a) = s.halfway() {
        s = s.learn(a, try_level(s.start, jobs, a, a + most));
    }
    s
}
