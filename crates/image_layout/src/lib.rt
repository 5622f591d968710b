//! The layout of a state's image: how long each part is and where it stands, and for each value of the state the bytes that stand for it.
//!
//! A part is a value with a `Layout`: `via_layout`, `clock_layout` and `disk_layout` have those of the VIA, the clock chip and the disk lines with the drives. What an image of the
//! later chip has more, its tail, is in `clock_layout` too.
#![tactic(auto)]

ghost use Rattle.std.specs.Prelude.{◌≡◌, ℕ, List, ◌+◌, ◌≤◌, length};
ghost use Rattle.octets.specs.Octets.{put_at};
ghost use Rattle.image_spec.specs.Layout.{head_length, tail_at, part, tail_length, image_length, kind_bytes, head_bytes, head_exact, chip_of, same_bytes};

use clock_spec::Chip;

mod clock_layout;
mod disk_layout;
mod via_layout;

pub use clock_layout::{PHASE_BYTES, Registers, cells, put_tail, second};

// The kinds of images: the first chip's, and the later one's.
const ST: [u8; 2] = *b"ST";

const SX: [u8; 2] = *b"SX";

/// The length of each part in bytes.
pub const HEAD_LENGTH: usize = 4;

pub const VIA_LENGTH: usize = 20;

pub const PHASE_LENGTH: usize = 4;

pub const REGISTERS_LENGTH: usize = 6;

/// The cells that every chip has.
pub const CELLS_LENGTH: usize = clock_command::FIRST_CELLS;

pub const LINES_LENGTH: usize = 8;

pub const INPUTS_LENGTH: usize = 7;

pub const SENSE_LENGTH: usize = 32;

pub const DRIVE_LENGTH: usize = 9;

pub const STROBE_LENGTH: usize = 5;

/// Where each part begins, and the length of the whole.
pub const HEAD: usize = 0;

pub const VIA: usize = HEAD + HEAD_LENGTH;

pub const PHASE: usize = VIA + VIA_LENGTH;

pub const REGISTERS: usize = PHASE + PHASE_LENGTH;

pub const CELLS: usize = REGISTERS + REGISTERS_LENGTH;

pub const LINES: usize = CELLS + CELLS_LENGTH;

pub const INPUTS: usize = LINES + LINES_LENGTH;

pub const SENSE: usize = INPUTS + INPUTS_LENGTH;

pub const INTERNAL: usize = SENSE + SENSE_LENGTH;

pub const EXTERNAL: usize = INTERNAL + DRIVE_LENGTH;

pub const STROBE: usize = EXTERNAL + DRIVE_LENGTH;

/// What the later chip's images have after what all have: its other cells and a second command byte.
pub const TAIL: usize = STROBE + STROBE_LENGTH;

pub const MORE_CELLS: usize = clock_command::ALL_CELLS - clock_command::FIRST_CELLS;

const TAIL_LENGTH: usize = MORE_CELLS + 1;

/// The length of the tail by the image's chip.
pub fn tail_length(chip: Chip) -> usize
    ensures { result ≡ tail_length chip }
{
    match chip {
        Chip::First => 0,
        Chip::Later => TAIL_LENGTH,
    }
}

/// The length of an image by its chip.
pub fn image_length(chip: Chip) -> usize
    ensures { result ≡ image_length chip }
{
    TAIL + tail_length(chip)
}

/// A value that stands in an image as `N` bytes.
pub trait Layout<const N: usize>: Copy {
    /// The bytes of a value, and the value that bytes stand for.
    ghost bytes_of: { Self → List ℕ };

    ghost value_of: { List ℕ → Self };

    /// What the value's type says of its numbers.
    ghost Fits: { Self → Type 0 };

    fn to_bytes(self) -> [u8; N]
        ensures { result ≡ bytes_of self };

    fn from_bytes(bytes: [u8; N]) -> Self
        ensures { result ≡ value_of bytes.entry };

    /// What was written is read again.
    ghost back: { (x : Self) → Fits x → value_of (bytes_of x) ≡ x };
}

/// The `N` bytes of an image from `at` on.
pub fn part<const N: usize>(image: &[u8], at: usize) -> [u8; N]
    requires { at + N ≤ length image.now }
    ensures { result ≡ part at N image.now }
{
    let mut bytes = [0; N];
    bytes.copy_from_slice(&image[at..at + N]);
    bytes
}

/// Writes the bytes of a value into an image, from `at` on.
pub fn put<T: Layout<N>, const N: usize>(image: &mut [u8], at: usize, value: T)
    requires { at + N ≤ length image.old }
    ensures { image.new ≡ put_at image.old at (T.bytes_of value) }
{
    image[at..at + N].copy_from_slice(&value.to_bytes());
}

/// Whether these are the very bytes of the value that they stand for. Compiled, this asks the flags alone.
pub fn exact<T: Layout<N>, const N: usize>(bytes: [u8; N]) -> bool
    ensures { result ≡ same_bytes (T.bytes_of (T.value_of bytes.entry)) bytes.entry }
{
    T::from_bytes(bytes).to_bytes() == bytes
}

/// Whether an image has this chip's head.
pub fn exact_head(image: &[u8], chip: Chip) -> bool
    requires { tail_at ≤ length image.now }
    ensures { result ≡ head_exact chip (part 0 head_length image.now) }
{
    chip.to_bytes() == part(image, HEAD)
}

/// The head stands for the chip: the length of what follows it, and the kind.
impl Layout<HEAD_LENGTH> for Chip {
    ghost use Rattle.image_layout.specs.Values.{AnyChip};
    ghost use Rattle.image_layout.specs.Values.{chip_back};

    ghost bytes_of = { head_bytes };

    ghost value_of = { chip_of };

    ghost Fits = { AnyChip };

    #[tactic(auto, unfolding(image_spec::specs::Layout::head_bytes))]
    fn to_bytes(self) -> [u8; HEAD_LENGTH]
        ensures { result ≡ head_bytes self }
    {
        let [low, high] = (image_length(self) as u16 - 2).to_le_bytes();
        let [first, second] = match self {
            Chip::First => ST,
            Chip::Later => SX,
        };
        [low, high, first, second]
    }

    fn from_bytes(bytes: [u8; HEAD_LENGTH]) -> Chip
        ensures { result ≡ chip_of bytes }
    {
        if bytes[3] == SX[1] {
            Chip::Later
        } else {
            Chip::First
        }
    }

    ghost back = { chip_back };
}

/// Levels and cells stand as they are.
impl<const N: usize> Layout<N> for [u8; N] {
    ghost use Rattle.image_layout.specs.Values.{any_bytes, AnyBytes, bytes_back};

    ghost bytes_of = { any_bytes };

    ghost value_of = { any_bytes };

    ghost Fits = { AnyBytes };

    fn to_bytes(self) -> [u8; N]
        ensures { result ≡ self.entry }
    {
        self
    }

    fn from_bytes(bytes: [u8; N]) -> [u8; N]
        ensures { result ≡ bytes.entry }
    {
        bytes
    }

    ghost back = { bytes_back };
}
