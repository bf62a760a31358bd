// Settling over arrays: which job improves by moving alone, and moves until none does.
#![tactic(auto)]

pub mod improve;
pub mod settle;
