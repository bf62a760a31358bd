// What a trial and balance look for in arrays: who waits, who is light or over, what is lowest; groups of machines; and lists as marks.
#![tactic(auto)]

pub mod group;
pub mod marks;
pub mod scan;
