// The planner over the sheet: review, the single trial, balance and settle.
#![tactic(auto)]

use arrays::MACHINES;
use scans::group::Members;
use sheet::Sheet;

mod balance;
pub mod calls;
mod drawn;
mod items;
mod laid;

// What a review answers: the load of each machine, 0 past the last, the greatest, and the number of the lowest job that would finish
// earlier elsewhere.
#[derive(Clone, Copy)]
pub struct Reviewed {
    pub loads: [u32; MACHINES],
    pub makespan: u32,
    pub improving: Option<usize>,
}

// How a trial ends: the places of the batches, 0 past the last (an array, since the planner has no heap), or the group of a failure.
#[derive(Clone, Copy)]
pub enum Outcome {
    Passed([u8; 200]),
    Failed(Members),
}

// What a trial answers.
#[derive(Clone, Copy)]
pub struct Tried {
    pub outcome: Outcome,
    pub lifts: u32,
    pub pushes: u32,
}

// What balance answers: its makespan, the lower bound, the level kept with the lifts and pushes of its trial, the group of the highest
// failed level, of no machine where none failed, and the sheet with its new places.
#[derive(Clone, Copy)]
pub struct Balanced {
    pub makespan: u32,
    pub bound: u32,
    pub level: u32,
    pub lifts: u32,
    pub pushes: u32,
    pub group: Members,
    pub sheet: Sheet,
}

// What settle answers: its makespan, its moves, and the sheet with its new places.
#[derive(Clone, Copy)]
pub struct Settled {
    pub makespan: u32,
    pub moves: u64,
    pub sheet: Sheet,
}
