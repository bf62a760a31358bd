// A sheet written to a file, in the form that the reader takes: written back, or for the first time from a worklist.
#![tactic(auto)]

pub mod take;
pub mod write;
