//! Demand 3 of a run over a list of bytes: stated in specs/Runs.antt, proved in proofs/Runs.antt. There is no code here.
#![tactic(auto)]
