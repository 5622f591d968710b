//! The IWM as eight disk lines and a sense bit (document 01, "Disk lines"). The lines are kept as the byte of an answer.
#![tactic(auto)]

ghost use Rattle.std.specs.Prelude.{◌≡◌, true, ◌<◌, ◌+◌, ◌*◌, ◌%◌, eqb};
ghost use Rattle.disk_lines.specs.Lines.{level_of, line_levels, lines_of, lines_off, with_level, after_access, read_line, sense_at};

/// One of the eight disk lines. Its number is its bit in the lines' byte.
#[derive(Clone, Copy, PartialEq, Eq)]
pub enum Line {
    Ca0,
    Ca1,
    Ca2,
    Lstrb,
    Enable,
    Select,
    Q6,
    Q7,
}

/// The levels of the eight lines: the bit of a line is 0 where it is off, 1 where it is on.
#[derive(Clone, Copy, PartialEq, Eq)]
pub struct DiskLines {
    pub lines: u8,
}

/// The byte with the line of bit `i` at this level.
#[tactic(auto, unfolding(crate::specs::Lines::with_level))]
fn with_level(lines: u8, i: u8, level: u8) -> u8
    requires { (i < 8) × (level < 2) }
    ensures { result ≡ with_level lines i level }
{
    let was = (lines >> i) % 2;
    lines - (was << i) + (level << i)
}

impl DiskLines {
    /// All lines off: fresh, and after a reset.
    #[tactic(auto, unfolding(crate::specs::Lines::lines_off))]
    pub fn off() -> DiskLines
        ensures { result ≡ lines_off }
    {
        DiskLines { lines: 0 }
    }

    /// The lines with these levels.
    #[tactic(auto, unfolding(crate::specs::Lines::lines_of))]
    pub fn from_levels(l: [u8; 8]) -> DiskLines
        ensures { result ≡ lines_of l }
    {
        let low = nibble(l[0], l[1], l[2], l[3]);
        let high = nibble(l[4], l[5], l[6], l[7]);
        DiskLines {
            lines: low + 16 * high,
        }
    }

    /// Whether a line is on.
    pub fn is_on(self, line: Line) -> bool
        ensures { result ≡ eqb (level_of line self) 1 }
    {
        (self.lines >> (line as u8)) % 2 == 1
    }

    /// The lines after an access, read or write, of location 0 to 15.
    #[tactic(auto, unfolding(crate::specs::Lines::after_access))]
    pub fn access(self, location: u8) -> DiskLines
        requires { location < 16 }
        ensures { result ≡ after_access location self }
    {
        DiskLines {
            lines: with_level(self.lines, location / 2, location % 2),
        }
    }

    /// The value of a read, after its access. `sense` is the level at the sense address.
    // Levels are numbers below 2, as in images and answers: `read_line`, `sense_at` and `pulse_of` calculate with them.
    #[tactic(auto, unfolding(crate::specs::Lines::read_line))]
    pub fn read(self, location: u8, sense: u8) -> u8
        requires { sense < 2 }
        ensures { result ≡ read_line location sense self }
    {
        if location == 14 && self.is_on(Line::Q6) {
            if self.is_on(Line::Enable) {
                128 * sense
            } else {
                128
            }
        } else {
            255
        }
    }

    /// The place of the sense among the 32 sense levels, the internal drive's 16 first. `sel` is the level of the VIA's line SEL.
    #[tactic(auto, unfolding(crate::specs::Lines::sense_at))]
    pub fn sense_at(self, sel: u8) -> u8
        requires { sel < 2 }
        ensures { (result ≡ sense_at self sel) × (result < 32) }
    {
        let register = 2 * (self.lines % 8) + sel;
        let drive = self.lines / 32 % 2;
        16 * drive + register
    }

    /// The levels of the eight lines, in their order.
    #[tactic(auto, unfolding(crate::specs::Lines::line_levels))]
    pub fn levels(self) -> [u8; 8]
        ensures { result ≡ line_levels self }
    {
        let l = self.lines;
        [
            l % 2,
            l / 2 % 2,
            l / 4 % 2,
            l / 8 % 2,
            l / 16 % 2,
            l / 32 % 2,
            l / 64 % 2,
            l / 128 % 2,
        ]
    }
}

/// Four levels as a number, the first in bit 0.
fn nibble(a: u8, b: u8, c: u8, d: u8) -> u8
    ensures { (result ≡ a % 2 + 2 * (b % 2) + 4 * (c % 2) + 8 * (d % 2)) × (result < 16) }
{
    a % 2 + 2 * (b % 2) + 4 * (c % 2) + 8 * (d % 2)
}
