//! Records, items and answers: types, what document 01 says of them (specs/) and the laws of that (proofs/).
//! The code that reads and writes their bytes is in the other crates of the family.
#![tactic(auto)]

ghost use Rattle.std.specs.Prelude.{◌≡◌};
ghost use Rattle.item_spec.specs.Items.{read_from, write_to};

use refusal::Refusal;
use units::WaitTicks;

/// What stands at one of the 32 addresses.
#[derive(Clone, Copy, PartialEq, Eq)]
pub enum Location {
    /// A VIA register, 0 to 15.
    Via(u8),
    /// An IWM location, 0 to 15.
    Iwm(u8),
}

impl Location {
    /// The RD of this location after a wait.
    pub fn read(self, wait: WaitTicks) -> Item
        ensures { result ≡ read_from self wait }
    {
        match self {
            Location::Via(register) => Item::ReadVia { wait, register },
            Location::Iwm(location) => Item::ReadIwm { wait, location },
        }
    }

    /// The WR of a value to this location after a wait.
    pub fn write(self, wait: WaitTicks, value: u8) -> Item
        ensures { result ≡ write_to self wait value }
    {
        match self {
            Location::Via(register) => Item::WriteVia {
                wait,
                register,
                value,
            },
            Location::Iwm(location) => Item::WriteIwm {
                wait,
                location,
                value,
            },
        }
    }
}

/// What an answer of kind OK shows of the machine after its item.
#[derive(Clone, Copy, PartialEq, Eq)]
pub struct Shown {
    /// The value read.
    pub value: u8,
    /// The interrupt level.
    pub level: u8,
    /// The disk-line byte: CA0, CA1, CA2, LSTRB, ENABLE, SELECT, Q6, Q7 in bits 0 to 7.
    pub lines: u8,
    /// The level of SEL.
    pub sel: u8,
}

/// What an answer says: OK and what is shown, or NO and why.
pub type Answer = Result<Shown, Refusal>;

/// What a record asks for. Each wait is in VIA ticks, a type of its own. Its flags, levels and drives are the record's bytes, which
/// `ItemInRange`, `acted_of` and the theorems on them say as numbers.
#[derive(Clone, Copy)]
pub enum Item {
    /// RD, of a VIA register.
    ReadVia {
        wait: WaitTicks,
        register: u8,
    },
    /// RD, of an IWM location.
    ReadIwm {
        wait: WaitTicks,
        location: u8,
    },
    /// WR, to a VIA register.
    WriteVia {
        wait: WaitTicks,
        register: u8,
        value: u8,
    },
    /// WR, to an IWM location.
    WriteIwm {
        wait: WaitTicks,
        location: u8,
        value: u8,
    },
    /// VB, vertical blanking.
    Blank {
        wait: WaitTicks,
    },
    /// SE, a second.
    Second {
        wait: WaitTicks,
    },
    /// IN, an input line and its level.
    Line {
        wait: WaitTicks,
        line: u8,
        level: u8,
    },
    /// SN, the level of a sense register: drive 0 is internal, 1 external.
    Sense {
        wait: WaitTicks,
        drive: u8,
        register: u8,
        level: u8,
    },
    /// RS, a reset.
    Reset {
        wait: WaitTicks,
    },
    /// PW, the power cut for so many seconds.
    Power {
        wait: WaitTicks,
        seconds: u32,
    },
    /// DI, a disk: drive 0 is internal, 1 external; insert 1 or remove 0; locked 1, double-sided 1.
    Disk {
        wait: WaitTicks,
        drive: u8,
        insert: u8,
        locked: u8,
        sides: u8,
    },
    /// KC: one pulse of the keyboard's clock, with the level of its data line.
    Pulse {
        wait: WaitTicks,
        level: u8,
    },
}

/// MW: many writes to one address, each value a WR of its own. The values stay in the record, from byte 9 after its length on.
#[derive(Clone, Copy)]
pub struct Many {
    /// Before the first value, in VIA ticks.
    pub wait: WaitTicks,
    /// Where every value is written to.
    pub to: Location,
}

/// What a record that is not refused asks for: one item, or many writes.
#[derive(Clone, Copy)]
pub enum Decoded {
    One(Item),
    Many(Many),
}

/// The kinds whose items are a wait alone: VB, SE, RS.
#[derive(Clone, Copy, PartialEq, Eq)]
pub enum Plain {
    Blank,
    Second,
    Reset,
}
