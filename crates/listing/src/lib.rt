// The listing: its text in a lent buffer, from a sheet's bytes, and what the program prints.
#![tactic(auto)]

pub mod host;
mod plan;
pub mod print;
mod rows;
