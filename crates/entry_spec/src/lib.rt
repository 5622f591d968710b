//! What a call of the C entry leaves, as definitions (specs/Call.antt), with the laws that a shell may rely on in proofs/. The code is in the crate swarmtempo.
#![tactic(auto)]
