//! The laws that captures are cut and joined by, request W-212: stated in specs/, proved in proofs/. There is no code here.
#![tactic(auto)]
