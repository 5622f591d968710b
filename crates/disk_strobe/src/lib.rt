//! The levels that a strobe goes by, how long LSTRB was on, and which of its drops write. Time is in VIA ticks.
//!
//! The levels before and after an item are two parameters, as of `strobe_after` and `strobe_writes` and of the clock's step: a pair of them would be no plainer.
#![tactic(auto)]

ghost use Rattle.std.specs.Prelude.{◌≡◌, false};
ghost use Rattle.disk_spec.specs.Watched.{watched_of, register_of, unspoilt};
ghost use Rattle.disk_spec.specs.Strobe.{no_strobe, strobe_ticks, strobe_after, long_enough, strobe_writes, accepted_strobe};

use disk_lines::{DiskLines, Line};
use disk_spec::{DIRECTION, EJECT, EJECT_TICKS, MOTOR, STEP, Strobe, WRITE_TICKS, Watched};
use units::WaitTicks;

/// The levels that a strobe goes by, with `sel` the level of the VIA's line SEL.
#[tactic(auto, unfolding(disk_spec::specs::Watched::watched_of))]
pub fn watched_of(d: DiskLines, sel: u8) -> Watched
    ensures { result ≡ watched_of d sel }
{
    Watched {
        lstrb: d.is_on(Line::Lstrb),
        enable: d.is_on(Line::Enable),
        ca0: d.is_on(Line::Ca0),
        ca1: d.is_on(Line::Ca1),
        ca2: d.is_on(Line::Ca2),
        sel: sel == 1,
        select: d.is_on(Line::Select),
    }
}

/// Whether an item with these levels before and after it leaves a strobe as it is: ENABLE is on, and no level but LSTRB and ENABLE moved.
#[tactic(auto, unfolding(disk_spec::specs::Watched::held_still, disk_spec::specs::Watched::unspoilt))]
pub fn leaves_unspoilt(before: Watched, after: Watched) -> bool
    ensures { result ≡ unspoilt before after }
{
    let held = Watched {
        lstrb: after.lstrb,
        enable: after.enable,
        ..before
    };
    after.enable & (held == after)
}

/// The register that CA1 and CA0 address.
#[tactic(auto, unfolding(disk_spec::specs::Watched::register_of))]
pub fn register(levels: Watched) -> u8
    ensures { result ≡ register_of levels }
{
    match (levels.ca1, levels.ca0) {
        (false, false) => DIRECTION,
        (false, true) => STEP,
        (true, false) => MOTOR,
        (true, true) => EJECT,
    }
}

/// Whether a strobe of so many ticks writes to this register.
#[tactic(auto, unfolding(disk_spec::specs::Strobe::long_enough))]
fn long_enough(register: u8, ticks: u32) -> bool
    ensures { result ≡ long_enough register ticks }
{
    if register == EJECT {
        EJECT_TICKS <= ticks
    } else {
        (1 <= ticks) & (ticks <= WRITE_TICKS)
    }
}

/// No strobe: LSTRB is off.
pub fn off() -> Strobe
    ensures { result ≡ no_strobe }
{
    Strobe {
        ticks: 0,
        steady: false,
    }
}

/// The strobe after a wait, worked out from its VIA ticks.
pub fn wait(strobe: Strobe, wait: WaitTicks) -> Strobe
    ensures { result ≡ strobe_ticks wait.0 strobe }
{
    let ticks = wait.ticks();
    if strobe.steady && strobe.ticks < EJECT_TICKS {
        Strobe {
            ticks: EJECT_TICKS.min(strobe.ticks + ticks as u32),
            ..strobe
        }
    } else {
        strobe
    }
}

/// The strobe after an item, whose wait has passed already, with these levels before and after it.
#[tactic(auto, unfolding(disk_spec::specs::Strobe::strobe_after, disk_spec::specs::Watched::unspoilt))]
pub fn after(strobe: Strobe, before: Watched, after: Watched) -> Strobe
    ensures { result ≡ strobe_after before after strobe }
{
    if !after.lstrb {
        off()
    } else if !before.lstrb {
        Strobe {
            ticks: 0,
            steady: after.enable,
        }
    } else if leaves_unspoilt(before, after) {
        strobe
    } else {
        off()
    }
}

/// Whether that item drops LSTRB and a write acts: to the register of `after`, of CA2, in the drive that SELECT names.
#[tactic(auto, unfolding(disk_spec::specs::Strobe::long_enough, disk_spec::specs::Strobe::strobe_writes, disk_spec::specs::Watched::register_of, disk_spec::specs::Watched::unspoilt))]
pub fn writes(strobe: Strobe, before: Watched, after: Watched) -> bool
    ensures { result ≡ strobe_writes before after strobe }
{
    (before.lstrb & !after.lstrb)
        & ((strobe.steady & leaves_unspoilt(before, after))
            & (!after.sel & long_enough(register(after), strobe.ticks)))
}

/// Whether the strobe is in its ranges, with these levels.
#[tactic(auto, unfolding(disk_spec::specs::Strobe::accepted_strobe))]
pub fn accepted(strobe: Strobe, levels: Watched) -> bool
    ensures { result ≡ accepted_strobe levels strobe }
{
    (strobe.ticks <= EJECT_TICKS)
        & ((strobe.steady | (strobe.ticks == 0))
            & (!strobe.steady | (levels.lstrb & levels.enable)))
}
