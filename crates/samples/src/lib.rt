//! Samples S1 to S10 of document 01 and short runs of the drives: stated in specs/, proved in proofs/Proved.antt. There is no code here.
#![tactic(auto)]
