//! The VIA: ports, two timers, registers written, the shift register, reset; what is asked of its flags is in via_flags, reading in via_registers. The state goes in by value, and the next one comes out.
#![tactic(auto)]

ghost use Rattle.std.specs.Prelude.{◌≡◌, cond, true, false, ◌<◌};
ghost use Rattle.via_timer.specs.Timer.{steps};
ghost use Rattle.via.specs.Writes.{timer1_written, via_written};
ghost use Rattle.via.specs.Shift.{counted_of, shifted_of, pulse_of};
ghost use Rattle.via.specs.Via.{only_counts, fresh_via, latch_of, counter1, counter2, ticks, reset_of};

use units::WaitTicks;
use via_timer::Counter;

/// Output bits and directions of ports B and A; a direction bit of 1 is an output.
#[derive(Clone, Copy, Default)]
pub struct Ports {
    pub outb: u8,
    pub outa: u8,
    pub dirb: u8,
    pub dira: u8,
}

/// T1: counter in VIA ticks, latches, whether its passage sets flag 6, whether the next tick loads the latches.
#[derive(Clone, Copy, Default)]
pub struct Timer1 {
    pub counter: u16,
    pub low: u8,
    pub high: u8,
    pub armed: bool,
    pub due: bool,
}

/// T2: counter in VIA ticks, low latch, whether its passage sets flag 5. It has no high latch, and no load is ever due.
#[derive(Clone, Copy, Default)]
pub struct Timer2 {
    pub counter: u16,
    pub low: u8,
    pub armed: bool,
}

/// Flags and enables have bits 0 to 6. The keyboard's pulses since the last eighth are 0 to 7.
#[derive(Clone, Copy, Default)]
pub struct Via {
    pub ports: Ports,
    pub t1: Timer1,
    pub t2: Timer2,
    pub sr: u8,
    pub acr: u8,
    pub pcr: u8,
    pub flags: u8,
    pub enables: u8,
    pub pulses: u8,
}

/// The levels that the outside gives the lines of the two ports.
#[derive(Clone, Copy)]
pub struct Inputs {
    pub b: u8,
    pub a: u8,
}

/// What a read or a pulse gives: the VIA after it, and the value.
#[derive(Clone, Copy)]
pub struct Access {
    pub via: Via,
    pub value: u8,
}

/// All zero, as after a power cut.
#[tactic(auto, unfolding(crate::specs::Via::fresh_via))]
pub fn fresh() -> Via
    ensures { result ≡ fresh_via }
{
    Via::default()
}

impl Timer1 {
    /// Register 5 takes the value: the latches go into the counter.
    #[tactic(auto, unfolding(crate::specs::Writes::timer1_written))]
    fn load(mut self, value: u8) -> Timer1
        ensures { result ≡ timer1_written 5 value self }
    {
        self.counter = u16::from_be_bytes([value, self.low]);
        self.high = value;
        self.armed = true;
        self.due = false;
        self
    }

    /// n VIA ticks, in free run or not.
    #[tactic(auto, unfolding(crate::specs::Via::latch_of))]
    fn run(self, free: bool, n: u16) -> Counter
        ensures { result ≡ steps n free (latch_of self) (counter1 self) }
    {
        let counter = Counter {
            value: self.counter,
            armed: self.armed,
            due: self.due,
            fired: false,
        };
        counter.run(free, u16::from_be_bytes([self.high, self.low]), n)
    }
}

impl Timer2 {
    /// n VIA ticks, standing still or not.
    fn run(self, still: bool, n: u16) -> Counter
        ensures { result ≡ cond still (counter2 self) (steps n false 0 (counter2 self)) }
    {
        let counter = Counter {
            value: self.counter,
            armed: self.armed,
            due: false,
            fired: false,
        };
        if still {
            counter
        } else {
            counter.run(false, 0, n)
        }
    }
}

/// A timer's flag where the timer has fired, and no flag else.
fn flag(timer: Counter, mask: u8) -> u8
    ensures { result ≡ cond timer.fired mask 0 }
{
    if timer.fired { mask } else { 0 }
}

impl Via {
    /// The wait passes, worked out from its VIA ticks.
    pub fn wait(mut self, wait: WaitTicks) -> Via
        ensures { result ≡ ticks wait.0 self }
    {
        let n = wait.ticks();
        let t1 = self.t1.run(self.acr / 64 % 2 == 1, n);
        let t2 = self.t2.run(self.acr / 32 % 2 == 1, n);
        self.t1.counter = t1.value;
        self.t1.armed = t1.armed;
        self.t1.due = t1.due;
        self.t2.counter = t2.value;
        self.t2.armed = t2.armed;
        self.flags |= flag(t1, 64);
        self.flags |= flag(t2, 32);
        self
    }

    /// Whether the wait does no more than take its VIA ticks from both counters: no load is due, T2 counts, and neither passes 0.
    #[tactic(auto, unfolding(crate::specs::Via::only_counts))]
    pub fn only_counts(self, wait: WaitTicks) -> bool
        ensures { result ≡ only_counts wait.0 self }
    {
        let n = wait.ticks();
        !self.t1.due && self.acr / 32 % 2 == 0 && n <= self.t1.counter && n <= self.t2.counter
    }

    /// A wait that does no more.
    pub fn count(mut self, wait: WaitTicks) -> Via
        requires { only_counts wait.0 self ≡ true }
        ensures { result ≡ ticks wait.0 self }
    {
        let n = wait.ticks();
        self.t1.counter -= n;
        self.t2.counter -= n;
        self
    }

    /// Counters, latches and register 10 stay; the rest is as fresh.
    #[tactic(auto, unfolding(crate::specs::Via::reset_of))]
    pub fn reset(self) -> Via
        ensures { result ≡ reset_of self }
    {
        Via {
            t1: Timer1 {
                armed: false,
                due: false,
                ..self.t1
            },
            t2: Timer2 {
                armed: false,
                ..self.t2
            },
            sr: self.sr,
            ..fresh()
        }
    }

    /// The value is written to a register, 0 to 15; there is no other.
    #[tactic(auto, unfolding(crate::specs::Writes::via_written))]
    pub fn write(mut self, register: u8, value: u8) -> Via
        ensures { result ≡ via_written register value self }
    {
        match register {
            0 => self.ports.outb = value,
            1 => {
                self.ports.outa = value;
                self.flags &= !via_bits::port_a_flags(self.pcr);
            },
            2 => self.ports.dirb = value,
            3 => self.ports.dira = value,
            4 | 6 => self.t1.low = value,
            5 => {
                self.t1 = self.t1.load(value);
                self.flags &= !64;
            },
            7 => {
                self.t1.high = value;
                self.flags &= !64;
            },
            8 => self.t2.low = value,
            9 => {
                self.t2.counter = u16::from_be_bytes([value, self.t2.low]);
                self.t2.armed = true;
                self.flags &= !32;
            },
            10 => {
                self.sr = value;
                self.flags &= !4;
                self.pulses = 0;
            },
            11 => self.acr = value,
            12 => self.pcr = value,
            13 => self.flags &= !(value % 128),
            14 => self.enables = via_bits::enable(value, self.enables),
            15 => self.ports.outa = value,
            _ => {},
        }
        self
    }

    /// A pulse counts: each eighth sets flag 2, and the count is 0 again.
    #[tactic(auto, unfolding(crate::specs::Shift::counted_of))]
    fn counted(mut self) -> Via
        ensures { result ≡ counted_of self }
    {
        if self.pulses < 7 {
            self.pulses += 1;
        } else {
            self.flags |= 4;
            self.pulses = 0;
        }
        self
    }

    /// Register 10 moves up one bit and takes the level as bit 0.
    #[tactic(auto, unfolding(crate::specs::Shift::shifted_of))]
    fn shifted(mut self, level: u8) -> Via
        requires { level < 2 }
        ensures { result ≡ shifted_of level self }
    {
        self.sr = self.sr % 128 * 2 + level;
        self.counted()
    }

    /// One pulse of the keyboard's clock, with this level on its data line.
    #[tactic(auto, unfolding(crate::specs::Shift::pulse_of))]
    pub fn pulse(self, level: u8) -> Access
        requires { level < 2 }
        ensures { result ≡ pulse_of level self }
    {
        match self.acr / 4 % 8 {
            // shift in
            0b011 => Access {
                via: self.shifted(level),
                value: 0,
            },
            // shift out
            0b111 => {
                let bit = self.sr / 128;
                Access {
                    via: self.shifted(bit),
                    value: bit,
                }
            },
            _ => Access {
                via: self,
                value: 0,
            },
        }
    }
}
