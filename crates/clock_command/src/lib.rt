//! The clock chip's commands: what a byte asks by its bit pattern, and what the whole bytes of a transaction come to.
#![tactic(auto)]

ghost use Rattle.std.specs.Prelude.{◌≡◌, ◌<◌};
ghost use Rattle.clock_spec.specs.Command.{cells_of, either};
ghost use Rattle.clock_spec.specs.Patterns.{meant, second_meant, extend};
ghost use Rattle.clock_spec.specs.Phase.{by_first, by_second, by_third, hear};
ghost use Rattle.clock_command.specs.Decode.{is_later, short_of, HighInRange};
ghost use Rattle.clock_command.specs.Table.{entry_of};

use clock_spec::{Bytes, Chip, Command, Target, Verdict};

/// The cells of the first chip.
pub const FIRST_CELLS: usize = 20;

/// The cells of the later chip, for which every store has room.
pub const ALL_CELLS: usize = 256;

/// The number of cells that a chip has.
// What this shares with `image_layout::tail_length` is the match alone: one function over both constants is no plainer.
pub fn cell_count(chip: Chip) -> usize
    ensures { result ≡ cells_of chip }
{
    match chip {
        Chip::First => FIRST_CELLS,
        Chip::Later => ALL_CELLS,
    }
}

/// How a command's first byte is looked up. Every way has one contract, which names none of them.
pub trait Lookup {
    /// What a command's first byte asks of a chip.
    fn decoded(chip: Chip, byte: u8) -> Command
        ensures { result ≡ meant chip byte };
}

/// A first byte is looked up in the table.
#[derive(Clone, Copy)]
pub struct Table;

/// A first byte is held against the patterns, one after the other.
#[derive(Clone, Copy)]
pub struct Patterns;

// "z=1 for read."
fn either_way(read: bool, target: Target) -> Command
    ensures { result ≡ either read target }
{
    if read {
        Command::Read(target)
    } else {
        Command::Write(target)
    }
}

// The 256 first bytes, $00 to $0F in the first row. An entry has z in bit 7, a kind in bits 6 and 5, a number in bits 4 to 0. Kind 1 is a seconds byte, 2 a cell,
// 3 the high three bits of a cell's number, which the later chip alone takes; kind 0 with 1 is test, with 2 write-protect, else no command of either chip.
const COMMANDS: [u8; 256] = *b"\
    \x00\x20\x00\x00\x00\x21\x00\x00\x00\x22\x00\x00\x00\x23\x00\x00\
    \x00\x00\x00\x00\x00\x00\x00\x00\x00\x00\x00\x00\x00\x00\x00\x00\
    \x00\x50\x00\x00\x00\x51\x00\x00\x00\x52\x00\x00\x00\x53\x00\x00\
    \x00\x01\x00\x00\x00\x02\x00\x00\x60\x61\x62\x63\x64\x65\x66\x67\
    \x00\x40\x00\x00\x00\x41\x00\x00\x00\x42\x00\x00\x00\x43\x00\x00\
    \x00\x44\x00\x00\x00\x45\x00\x00\x00\x46\x00\x00\x00\x47\x00\x00\
    \x00\x48\x00\x00\x00\x49\x00\x00\x00\x4a\x00\x00\x00\x4b\x00\x00\
    \x00\x4c\x00\x00\x00\x4d\x00\x00\x00\x4e\x00\x00\x00\x4f\x00\x00\
    \x00\xa0\x00\x00\x00\xa1\x00\x00\x00\xa2\x00\x00\x00\xa3\x00\x00\
    \x00\x00\x00\x00\x00\x00\x00\x00\x00\x00\x00\x00\x00\x00\x00\x00\
    \x00\xd0\x00\x00\x00\xd1\x00\x00\x00\xd2\x00\x00\x00\xd3\x00\x00\
    \x00\x00\x00\x00\x00\x00\x00\x00\xe0\xe1\xe2\xe3\xe4\xe5\xe6\xe7\
    \x00\xc0\x00\x00\x00\xc1\x00\x00\x00\xc2\x00\x00\x00\xc3\x00\x00\
    \x00\xc4\x00\x00\x00\xc5\x00\x00\x00\xc6\x00\x00\x00\xc7\x00\x00\
    \x00\xc8\x00\x00\x00\xc9\x00\x00\x00\xca\x00\x00\x00\xcb\x00\x00\
    \x00\xcc\x00\x00\x00\xcd\x00\x00\x00\xce\x00\x00\x00\xcf\x00\x00\
";

// What an entry of the table says to a chip.
#[tactic(auto, unfolding(crate::specs::Table::entry_of))]
fn entry_meaning(chip: Chip, entry: u8) -> Command
    ensures { result ≡ entry_of chip entry }
{
    let read = 128 <= entry;
    let number = entry % 32;
    match entry / 32 % 4 {
        1 => either_way(read, Target::Seconds(number)),
        2 => either_way(read, Target::Cell(number)),
        3 if chip == Chip::Later => Command::Extended { read, high: number },
        _ => match entry {
            1 => Command::Write(Target::Test),
            2 => Command::Write(Target::Protect),
            _ => Command::Illegal,
        },
    }
}

impl Lookup for Table {
    fn decoded(chip: Chip, byte: u8) -> Command {
        entry_meaning(chip, COMMANDS[byte as usize])
    }
}

// A command of one byte by document 01's patterns, in its order.
#[tactic(auto, unfolding(crate::specs::Decode::short_of))]
fn short_command(byte: u8) -> Command
    ensures { result ≡ short_of byte }
{
    let read = 128 <= byte;
    if byte & 0x73 == 0x01 {
        // z000aa01
        either_way(read, Target::Seconds(byte / 4 % 4))
    } else if byte == 0x31 {
        // 00110001
        Command::Write(Target::Test)
    } else if byte == 0x35 {
        // 00110101
        Command::Write(Target::Protect)
    } else if byte & 0x73 == 0x21 {
        // z010aa01
        either_way(read, Target::Cell(16 + byte / 4 % 4))
    } else if byte & 0x43 == 0x41 {
        // z1aaaa01
        either_way(read, Target::Cell(byte / 4 % 16))
    } else {
        Command::Illegal
    }
}

// W-206's z0111abc on the later chip, then document 01's patterns.
impl Lookup for Patterns {
    fn decoded(chip: Chip, byte: u8) -> Command {
        if chip == Chip::Later && byte & 0x78 == 0x38 {
            Command::Extended {
                read: 128 <= byte,
                high: byte % 8,
            }
        } else {
            short_command(byte)
        }
    }
}

// What a second byte makes of the first one's z and abc.
fn second(read: bool, high: u8, byte: u8) -> Command
    requires { high < 8 }
    ensures { result ≡ second_meant read high byte }
{
    if byte < 128 && byte % 4 == 0 {
        either_way(read, Target::Cell(32 * high + byte / 4))
    } else {
        Command::Illegal
    }
}

// The command that a first byte and a second one make.
fn extended(first: Command, byte: u8) -> Command
    requires { HighInRange first }
    ensures { result ≡ extend first byte }
{
    match first {
        Command::Extended { read, high } => second(read, high, byte),
        Command::Write(_) | Command::Read(_) | Command::Illegal => Command::Illegal,
    }
}

fn by_first(command: Command) -> Verdict
    ensures { result ≡ by_first command }
{
    match command {
        Command::Write(_) | Command::Extended { .. } => Verdict::More,
        Command::Read(target) => Verdict::Reads(target),
        Command::Illegal => Verdict::Ignored,
    }
}

fn by_second(command: Command, byte: u8) -> Verdict
    requires { HighInRange command }
    ensures { result ≡ by_second command byte }
{
    match command {
        Command::Write(target) => Verdict::Writes(target),
        Command::Extended { .. } => by_first(extended(command, byte)),
        Command::Read(_) | Command::Illegal => Verdict::Ignored,
    }
}

fn by_third(command: Command) -> Verdict
    ensures { result ≡ by_third command }
{
    match command {
        Command::Write(target) => Verdict::Writes(target),
        Command::Read(_) | Command::Extended { .. } | Command::Illegal => Verdict::Ignored,
    }
}

/// What the byte b and the whole bytes before it come to.
#[tactic(auto, using(crate::proofs::Agrees::high), unfolding(clock_spec::specs::Phase::hear))]
pub fn hear<L: Lookup>(chip: Chip, bytes: Bytes, b: u8) -> Verdict
    ensures { result ≡ hear chip bytes b }
{
    match bytes {
        Bytes::Nothing => by_first(L::decoded(chip, b)),
        Bytes::One(c) => by_second(L::decoded(chip, c), b),
        Bytes::Two(c, d) => by_third(extended(L::decoded(chip, c), d)),
    }
}
