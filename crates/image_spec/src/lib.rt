// The image of a state: what W-201 says of its bytes (specs/) and the laws of that (proofs/).
// The code is in the other crates of the family.
#![tactic(auto)]
