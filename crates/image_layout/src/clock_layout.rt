//! The clock chip in an image: its half-made command, its registers, and the tail.
ghost use Rattle.std.specs.Prelude.{◌≡◌, length};
ghost use Rattle.image_spec.specs.Layout.{tail_length};
ghost use Rattle.image_spec.specs.ClockLayout.{tail_bytes, cells_read, second_of, register_bytes};
ghost use Rattle.image_layout.specs.Values.{phase_layout, phase_read, AnyPhase, phase_back, registers_layout, registers_read, RegistersFit, registers_back};

use crate::{CELLS_LENGTH, Layout, MORE_CELLS, PHASE_LENGTH, REGISTERS_LENGTH};
use clock_command::ALL_CELLS;
use clock_spec::{Bytes, Chip, Phase};

/// The four bytes of a half-made command, and its second command byte, which stands in the tail.
pub const PHASE_BYTES: usize = PHASE_LENGTH + 1;

/// The phase's number, the first command byte, the bits taken or the falls, their value or the byte sent, and the second command byte.
impl Layout<PHASE_BYTES> for Phase {
    ghost bytes_of = { phase_layout };

    ghost value_of = { phase_read };

    ghost Fits = { AnyPhase };

    #[tactic(auto, unfolding(image_spec::specs::ClockLayout::phase_bytes, image_spec::specs::ClockLayout::second_byte))]
    fn to_bytes(self) -> [u8; PHASE_BYTES]
        ensures { result ≡ phase_layout self }
    {
        match self {
            Phase::Idle => [0, 0, 0, 0, 0],
            Phase::Listening { bytes, count, bits } => match bytes {
                Bytes::Nothing => [1, 0, count, bits, 0],
                Bytes::One(first) => [2, first, count, bits, 0],
                Bytes::Two(first, second) => [5, first, count, bits, second],
            },
            Phase::Sending { byte, falls } => [3, 0, falls, byte, 0],
            Phase::Ignoring => [4, 0, 0, 0, 0],
        }
    }

    #[tactic(auto, unfolding(image_spec::specs::ClockLayout::phase_by))]
    fn from_bytes(bytes: [u8; PHASE_BYTES]) -> Phase
        ensures { result ≡ phase_read bytes }
    {
        let [kind, first, count, bits, second] = bytes;
        match kind {
            0 => Phase::Idle,
            1 => Phase::Listening {
                bytes: Bytes::Nothing,
                count,
                bits,
            },
            2 => Phase::Listening {
                bytes: Bytes::One(first),
                count,
                bits,
            },
            3 => Phase::Sending {
                byte: bits,
                falls: count,
            },
            5 => Phase::Listening {
                bytes: Bytes::Two(first, second),
                count,
                bits,
            },
            _ => Phase::Ignoring,
        }
    }

    ghost back = { phase_back };
}

/// What the chip keeps beside its cells.
#[derive(Clone, Copy)]
pub struct Registers {
    pub protect: bool,
    pub test: u8,
    pub seconds: u32,
}

impl Layout<REGISTERS_LENGTH> for Registers {
    ghost bytes_of = { registers_layout };

    ghost value_of = { registers_read };

    ghost Fits = { RegistersFit };

    fn to_bytes(self) -> [u8; REGISTERS_LENGTH]
        ensures { result ≡ registers_layout self }
    {
        let [s0, s1, s2, s3] = self.seconds.to_le_bytes();
        [self.protect as u8, self.test, s0, s1, s2, s3]
    }

    fn from_bytes(bytes: [u8; REGISTERS_LENGTH]) -> Registers
        ensures { result ≡ registers_read bytes }
    {
        let [protect, test, s0, s1, s2, s3] = bytes;
        Registers {
            protect: protect == 1,
            test,
            seconds: u32::from_le_bytes([s0, s1, s2, s3]),
        }
    }

    ghost back = { registers_back };
}

/// Writes the tail: the later chip's other cells and the second command byte.
#[tactic(auto, unfolding(image_spec::specs::ClockLayout::tail_bytes))]
pub fn put_tail(tail: &mut [u8], chip: Chip, phase: Phase, cells: &[u8; ALL_CELLS])
    requires { length tail.old ≡ tail_length chip }
    ensures { tail.new ≡ tail_bytes chip phase cells.now }
{
    match chip {
        Chip::First => {}
        Chip::Later => {
            let phase: [u8; PHASE_BYTES] = phase.to_bytes();
            octets::copy(tail, 0, &cells[CELLS_LENGTH..]);
            tail[MORE_CELLS] = phase[PHASE_LENGTH];
        }
    }
}

/// The second command byte of a tail: one without it has 0.
#[tactic(auto, unfolding(image_spec::specs::ClockLayout::tail_of))]
pub fn second(tail: &[u8]) -> u8
    ensures { result ≡ second_of tail.now }
{
    tail.get(MORE_CELLS).copied().unwrap_or(0)
}

/// The cells: the first ones and those of the tail. What the tail does not have is 0.
pub fn cells(chip: Chip, first: [u8; CELLS_LENGTH], tail: &[u8]) -> [u8; ALL_CELLS]
    requires { length tail.now ≡ tail_length chip }
    ensures { result ≡ cells_read first tail.now }
{
    let more = clock_command::cell_count(chip) - CELLS_LENGTH;
    let mut cells = [0; ALL_CELLS];
    octets::copy(&mut cells, 0, &first);
    octets::copy(&mut cells, CELLS_LENGTH, &tail[..more]);
    cells
}
