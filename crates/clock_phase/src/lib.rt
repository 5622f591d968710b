//! The phase of a transaction: the edges of the three wires, bits taken and sent, the bit shown, the phases accepted.
#![tactic(auto)]

ghost use Rattle.std.specs.Prelude.{◌≡◌, ◌<◌, ◌+◌, ◌*◌};
ghost use Rattle.clock_spec.specs.Command.{bit_number};
ghost use Rattle.clock_spec.specs.Phase.{between, with_byte, fall_phase, few_bits, more_follows, shown_level, accepted_phase};

use clock_command::Table;
use clock_spec::{Bytes, Chip, Edge, Phase, Verdict, Wires};

/// What the wires do between two items.
#[tactic(auto, unfolding(clock_spec::specs::Phase::between))]
pub fn edge_between(before: Wires, after: Wires) -> Edge
    ensures { result ≡ between before after }
{
    if after.enable {
        Edge::Up
    } else if before.enable {
        Edge::Starts
    } else {
        match (before.dataclock, after.dataclock) {
            (false, true) => Edge::Rise(after.dataline),
            (true, false) => Edge::Fall,
            (false, false) | (true, true) => Edge::Still,
        }
    }
}

/// One bit more on the right.
pub fn pushed(bits: u8, bit: bool) -> u8
    requires { bits < 128 }
    ensures { result ≡ 2 * bits + bit_number bit }
{
    2 * bits + u8::from(bit)
}

/// One byte more, where another follows it.
pub fn with_byte(bytes: Bytes, byte: u8) -> Bytes
    ensures { result ≡ with_byte bytes byte }
{
    match bytes {
        Bytes::Nothing => Bytes::One(byte),
        Bytes::One(first) => Bytes::Two(first, byte),
        Bytes::Two(..) => bytes,
    }
}

/// A fall while sending.
pub fn shift(byte: u8, falls: u8) -> Phase
    requires { falls < 9 }
    ensures { result ≡ fall_phase byte falls }
{
    if falls == 8 {
        Phase::Ignoring
    } else {
        Phase::Sending {
            byte,
            falls: falls + 1,
        }
    }
}

/// The level that the chip gives the data line.
#[tactic(auto, unfolding(clock_spec::specs::Phase::shown_level))]
pub fn shown_line(phase: Phase) -> bool
    ensures { result ≡ shown_level phase }
{
    match phase {
        Phase::Sending { byte, falls } => {
            falls == 0 || (byte >> 8_u8.saturating_sub(falls)) % 2 == 1
        }
        Phase::Idle | Phase::Listening { .. } | Phase::Ignoring => true,
    }
}

// Whether another byte follows these. Legality has one definition, so either lookup will do here.
#[tactic(auto, unfolding(clock_spec::specs::Phase::more_follows))]
fn more_follows(chip: Chip, bytes: Bytes) -> bool
    ensures { result ≡ more_follows chip bytes }
{
    match bytes {
        Bytes::Nothing => true,
        Bytes::One(c) => { clock_command::hear::<Table>(chip, Bytes::Nothing, c) == Verdict::More }
        Bytes::Two(c, d) => {
            clock_command::hear::<Table>(chip, Bytes::One(c), d) == Verdict::More
        }
    }
}

// Whether so many bits, 0 to 7, can have this value.
fn few_bits(count: u8, bits: u8) -> bool
    ensures { result ≡ few_bits count bits }
{
    count < 8 && bits >> count == 0
}

/// Whether the chip can be in this phase while enable has this level.
#[tactic(auto, unfolding(clock_spec::specs::Phase::accepted_phase))]
pub fn accepted_phase(chip: Chip, phase: Phase, enable: bool) -> bool
    ensures { result ≡ accepted_phase chip phase enable }
{
    match phase {
        Phase::Idle => enable,
        Phase::Listening { bytes, count, bits } => {
            !enable && more_follows(chip, bytes) && few_bits(count, bits)
        }
        Phase::Sending { falls, .. } => !enable && falls < 9,
        Phase::Ignoring => !enable,
    }
}
