// A journal: calls as a text, made one after the other on a sheet.
#![tactic(auto)]

mod answer;
mod call;
mod entry;
pub mod print;
pub mod run;
