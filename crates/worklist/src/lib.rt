// Worklists from the sample system: read row by row, and taken as a sheet.
#![tactic(auto)]

pub mod row;
pub mod take;
