// Document 01 as definitions, in specs/. There is no code here.
#![tactic(auto)]
