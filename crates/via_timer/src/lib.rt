//! One down counter, worked out for a whole wait at once. Both timers of the VIA are this counter.
#![tactic(auto)]

ghost use Rattle.std.specs.Prelude.{◌≡◌, ◌+◌, ◌<◌, true, false};

/// What a VIA tick changes of a timer, and whether the timer has fired since the wait began.
#[derive(Clone, Copy)]
pub struct Counter {
    pub value: u16,
    /// Whether the next passage of 0 fires.
    pub armed: bool,
    /// Whether the next tick loads the latch instead of counting.
    pub due: bool,
    pub fired: bool,
}

impl Counter {
    ghost use Rattle.via_timer.specs.Timer.{at, steps};

    /// In free run, `turn` ticks after a passage: the first of them loads the latch, the others count.
    #[tactic(auto, unfolding(crate::specs::Timer::steps))]
    fn turned(self, latch: u16, turn: u32) -> Counter
        requires { turn < latch + 2 }
        ensures { result ≡ steps turn true latch (at 65535 self.armed true self.fired) }
    {
        if turn == 0 {
            Counter {
                value: 65535,
                due: true,
                ..self
            }
        } else {
            Counter {
                value: latch.wrapping_sub((turn - 1) as u16),
                due: false,
                ..self
            }
        }
    }

    /// n ticks with no load due. The counter falls by n, past 0 to 65535 where n is above its value; in free run only the ticks since
    /// the last passage count.
    fn fall(self, free: bool, latch: u16, n: u16) -> Counter
        ensures { result ≡ steps n free latch (at self.value self.armed false self.fired) }
    {
        let fallen = Counter {
            value: self.value.wrapping_sub(n),
            due: false,
            ..self
        };
        if n <= self.value {
            return fallen;
        }
        let fired = self.fired | self.armed;
        if free {
            let since = u32::from(n - self.value - 1);
            Counter { fired, ..self }.turned(latch, since % (u32::from(latch) + 2))
        } else {
            Counter {
                armed: false,
                fired,
                ..fallen
            }
        }
    }

    /// n ticks, in free run or not, with this latch to load.
    #[tactic(auto, unfolding(crate::specs::Timer::steps))]
    pub fn run(self, free: bool, latch: u16, n: u16) -> Counter
        ensures { result ≡ steps n free latch self }
    {
        if n == 0 {
            self
        } else if self.due {
            Counter {
                value: latch,
                ..self
            }
            .fall(free, latch, n - 1)
        } else {
            self.fall(free, latch, n)
        }
    }
}
