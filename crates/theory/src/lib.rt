// What is true of the rules, as theorems in proofs/. There is no code here.
#![tactic(auto)]
