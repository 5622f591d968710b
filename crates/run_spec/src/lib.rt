//! What a record and a run over a list come to: defined in specs/Turn.antt and specs/Outcome.antt, with the laws that users rely on in proofs/. The code is in
//! the other crates of the family.
#![tactic(auto)]

use item_spec::Answer;
use machine_spec::Machine;
use refusal::Refusal;

/// What one record leaves: the next machine and its answer.
#[derive(Clone, Copy)]
pub struct Turn {
    pub machine: Machine,
    pub answer: Answer,
}

/// What a run reports: the machine and the answers are lent to it.
#[derive(Clone, Copy)]
pub struct Ran {
    /// Why it stopped; nothing where it came to the end of the list.
    pub stop: Option<Refusal>,
    /// The bytes of the list that it consumed.
    pub consumed: usize,
    /// The bytes of answers that it wrote.
    pub written: usize,
}
