//! The clock chip: its phase and its store, fresh, and its step by the three wires.
#![tactic(auto)]

ghost use Rattle.std.specs.Prelude.{◌≡◌, true};
ghost use Rattle.clock_spec.specs.Phase.{few_bits, hear, accepted_phase};
ghost use Rattle.clock.specs.Step.{with_phase, fresh_clock, after_byte, after_edge, step_wires};

use clock_command::Lookup;
use clock_spec::{Bytes, Chip, Edge, Phase, Store, Verdict, Wires};

/// The chip: where its transaction stands, and what it keeps.
#[derive(Clone, Copy)]
pub struct Clock {
    pub phase: Phase,
    pub store: Store,
}

/// A fresh chip: idle, and all that it keeps is 0.
pub fn fresh(chip: Chip) -> Clock
    ensures { result ≡ fresh_clock chip }
{
    Clock {
        phase: Phase::Idle,
        store: Store {
            chip,
            cells: [0; 256],
            seconds: 0,
            protect: false,
            test: 0,
        },
    }
}

impl Clock {
    // The last bit of a byte.
    #[tactic(auto, unfolding(clock_spec::specs::Store::act))]
    fn hear<L: Lookup>(&mut self, bytes: Bytes, byte: u8)
        ensures { self.new ≡ after_byte self.old.store bytes byte (hear self.old.store.chip bytes byte) }
    {
        self.phase = match clock_command::hear::<L>(self.store.chip, bytes, byte) {
            Verdict::More => Phase::Listening {
                bytes: clock_phase::with_byte(bytes, byte),
                count: 0,
                bits: 0,
            },
            Verdict::Reads(target) => Phase::Sending {
                byte: clock_store::fetch(&self.store, target),
                falls: 0,
            },
            Verdict::Writes(target) => {
                clock_store::act(&mut self.store, target, byte);
                Phase::Ignoring
            }
            Verdict::Ignored => Phase::Ignoring,
        };
    }

    // A rise while bits are taken.
    #[tactic(auto, unfolding(crate::specs::Step::after_edge, crate::specs::Step::next, crate::specs::Step::acts, clock_spec::specs::Store::act))]
    fn take<L: Lookup>(&mut self, bytes: Bytes, count: u8, bits: u8, bit: bool)
        requires { few_bits count bits ≡ true }
        ensures { self.new ≡ after_edge (with_phase self.old (Phase.Listening bytes count bits)) (Edge.Rise bit) }
    {
        let bits = clock_phase::pushed(bits, bit);
        if count == 7 {
            self.hear::<L>(bytes, bits);
        } else {
            self.phase = Phase::Listening {
                bytes,
                count: count + 1,
                bits,
            };
        }
    }

    /// The chip is idle, whatever it did; what it stores stays.
    pub fn idle(&mut self)
        ensures { self.new ≡ with_phase self.old Phase.Idle }
    {
        self.phase = Phase::Idle;
    }

    /// The chip looks at its wires: the levels before an item and after it. Cells are reached at the last bit of a byte alone.
    #[tactic(auto, unfolding(crate::specs::Step::step_wires, crate::specs::Step::after_edge, crate::specs::Step::next, crate::specs::Step::acts, clock_spec::specs::Store::act))]
    pub fn look<L: Lookup>(&mut self, before: Wires, after: Wires)
        requires { accepted_phase self.old.store.chip self.old.phase before.enable ≡ true }
        ensures { self.new ≡ step_wires self.old before after }
    {
        match (clock_phase::edge_between(before, after), self.phase) {
            (Edge::Up, _) => self.phase = Phase::Idle,
            (Edge::Starts, _) => {
                self.phase = Phase::Listening {
                    bytes: Bytes::Nothing,
                    count: 0,
                    bits: 0,
                };
            }
            (Edge::Fall, Phase::Sending { byte, falls }) => {
                self.phase = clock_phase::shift(byte, falls);
            }
            (Edge::Rise(bit), Phase::Listening { bytes, count, bits }) => {
                self.take::<L>(bytes, count, bits, bit);
            }
            _ => (),
        }
    }

    /// The same with the chip by value: the chip after an item that leaves its wires so.
    pub fn step<L: Lookup>(mut self, before: Wires, after: Wires) -> Clock
        requires { accepted_phase self.store.chip self.phase before.enable ≡ true }
        ensures { result ≡ step_wires self before after }
    {
        self.look::<L>(before, after);
        self
    }
}
