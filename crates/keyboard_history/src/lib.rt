// What a keyboard does over a whole sequence of commands, keys and waits, as definitions (specs/) and theorems (proofs/). The code is in the crate keyboard.
#![tactic(auto)]
