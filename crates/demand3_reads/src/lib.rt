//! What a bench reads from the clock, told by the history of its wires: defined in specs/, proved in proofs/.
#![tactic(auto)]
