// Demand 3: the clock's store told by the history of its wires, stated in specs/, proved in proofs/Holds.antt. There is no code here.
#![tactic(auto)]
