//! Prints the manual's table of the clock chip's 256 first command bytes, 16 by 16, from the table that a run looks them up in: docs/MANUAL.md says how to read it.
#![tactic(auto)]

use clock_command::{Lookup, Table};
use clock_spec::{Chip, Command, Target};
use std::fmt;

/// Whether a chip takes the byte as a command's first one.
fn legal(chip: Chip, byte: u8) -> bool {
    Table::decoded(chip, byte) != Command::Illegal
}

/// How many first bytes are legal.
fn count_legal(chip: Chip) -> usize {
    (0..=255_u8).filter(|&byte| legal(chip, byte)).count()
}

/// What a command of one byte names, and a mark after it, in four places.
#[derive(Clone, Copy)]
struct Named<'a> {
    target: Target,
    mark: &'a str,
}

impl fmt::Display for Named<'_> {
    fn fmt<W: fmt::Write>(&self, f: &mut fmt::Formatter<W>) -> fmt::Result {
        let mark = self.mark;
        match self.target {
            Target::Seconds(k) => write!(f, "s{k}{mark:<2}"),
            Target::Test => write!(f, "te{mark:<2}"),
            Target::Protect => write!(f, "pr{mark:<2}"),
            Target::Cell(i) if i < 10 => write!(f, "c{i}{mark:<2}"),
            Target::Cell(i) => write!(f, "c{i}{mark:<1}"),
        }
    }
}

/// A first byte: in five places what it means to the later chip, with a star where the first one does not take it.
#[derive(Clone, Copy)]
struct Entry(u8);

impl fmt::Display for Entry {
    fn fmt<W: fmt::Write>(&self, f: &mut fmt::Formatter<W>) -> fmt::Result {
        let byte = self.0;
        let mark = if legal(Chip::First, byte) { "" } else { "*" };
        match Table::decoded(Chip::Later, byte) {
            Command::Write(target) => {
                let named = Named { target, mark };
                write!(f, "W{named}")
            }
            Command::Read(target) => {
                let named = Named { target, mark };
                write!(f, "R{named}")
            }
            Command::Extended { read, high } => {
                let way = if read { 'R' } else { 'W' };
                write!(f, "{way}x{high}{mark:<2}")
            }
            Command::Illegal => write!(f, ".    "),
        }
    }
}

// A write that fails is passed over, and what follows is still printed.

/// The low digits above their columns, and the sixteen bytes of each high digit, which stands at both ends of its row.
fn print_table(rt: &impl Print) {
    let _ = print!(rt; " ");
    for low in 0..16_u8 {
        let _ = print!(rt; "   _{low:X}");
    }
    let _ = println!(rt);
    for high in 0..16_u8 {
        let _ = print!(rt; "${high:X}_ ");
        for low in 0..16_u8 {
            let entry = Entry(16 * high + low);
            let _ = print!(rt; "{entry}");
        }
        let _ = println!(rt; "${high:X}_");
    }
}

/// The counts under the table.
fn print_counts(rt: &impl Print) {
    let later = count_legal(Chip::Later);
    let first = count_legal(Chip::First);
    let _ = println!(rt; "{later} legal first bytes on the later chip: all that are not a dot.");
    let _ = println!(rt;
        "{first} legal first bytes on the first chip: those of them without a star."
    );
}

fn main(rt: HostRuntime) {
    print_table(&rt);
    let _ = println!(&rt);
    print_counts(&rt);
}
