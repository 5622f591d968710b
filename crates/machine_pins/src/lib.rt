//! The levels of the lines that the board goes by: what it gives the VIA's ports, the clock's three wires, SEL, the strobe's levels, the interrupt level.
#![tactic(auto)]

ghost use Rattle.std.specs.Prelude.{◌≡◌, true, List, ℕ, ◌<◌, ◌+◌, ◌*◌};
ghost use Rattle.levels.specs.Levels.{all_levels};
ghost use Rattle.clock.specs.declared.Clock.{Clock};
ghost use Rattle.disk_spec.specs.declared.Drives.{Drives};
ghost use Rattle.machine_spec.specs.Pins.{pin, wires_of, sel_of};
ghost use Rattle.machine_spec.specs.Machine.{wires, strobe_levels};
ghost use Rattle.machine_spec.specs.Wiring.{inputs_of, interrupt_level};
ghost use Rattle.machine_pins.specs.Board.{on_board};

use clock_spec::Wires;
use disk_spec::Watched;
use machine_spec::Machine;
use via::{Inputs, Ports};

// One line of a port, by its weight in the port's byte: the output bit where its direction is 1, else the input.
fn pin_level(out: u8, dir: u8, weight: u8, input: bool) -> bool
    requires { 0 < weight }
    ensures { result ≡ pin out dir weight input }
{
    if dir / weight % 2 == 1 {
        out / weight % 2 == 1
    } else {
        input
    }
}

/// The clock's three wires; `line` is the level that the chip gives its data line.
#[tactic(auto, unfolding(machine_spec::specs::Pins::wires_of))]
pub fn wires_of(p: Ports, line: bool) -> Wires
    ensures { result ≡ wires_of p line }
{
    Wires {
        enable: pin_level(p.outb, p.dirb, 4, true),
        dataclock: pin_level(p.outb, p.dirb, 2, true),
        dataline: pin_level(p.outb, p.dirb, 1, line),
    }
}

/// The level of PA5.
#[tactic(auto, unfolding(machine_spec::specs::Pins::sel_of))]
pub fn sel_of(p: Ports) -> u8
    ensures { (result ≡ sel_of p) × (result < 2) }
{
    pin_level(p.outa, p.dira, 32, true) as u8
}

/// The levels of the clock's three wires.
pub fn wires(machine: &Machine) -> Wires
    ensures { result ≡ wires machine.now }
{
    wires_of(
        machine.via.ports,
        clock_phase::shown_line(machine.clock.phase),
    )
}

/// The levels that the drives' strobe goes by. What stands beside the board has no part in it.
pub fn strobe_levels(machine: &Machine) -> Watched
    ensures levels { result ≡ strobe_levels machine.now }
    ensures of_board { (clock : Clock) (sense : List ℕ) (drives : Drives) → result ≡ strobe_levels (on_board machine.now clock sense drives) }
{
    disk_strobe::watched_of(machine.disk, sel_of(machine.via.ports))
}

// Four levels as bits 3 to 6.
fn middle(a: u8, b: u8, c: u8, d: u8) -> u8
    requires { (a < 2) × (b < 2) × (c < 2) × (d < 2) }
    ensures { (result ≡ 8 * a + 16 * b + 32 * c + 64 * d) × (result < 121) }
{
    8 * a + 16 * b + 32 * c + 64 * d
}

/// What the outside gives the ports: PB0 the clock's data line, PB3 to PB6 IN lines 0 to 3, PA7 IN line 4, the rest undriven.
/// `line` is the level that the chip gives its data line.
#[tactic(auto, unfolding(machine_spec::specs::Wiring::inputs_of))]
pub fn inputs_of(line: bool, lines: &[u8; 7]) -> Inputs
    requires { all_levels lines.now ≡ true }
    ensures { result ≡ inputs_of line lines.now }
{
    let between = middle(lines[0], lines[1], lines[2], lines[3]);
    Inputs {
        b: line as u8 + 2 + 4 + between + 128,
        a: 127 + 128 * lines[4],
    }
}

/// The interrupt level: the VIA's own level counts only while the serial chip isn't asking.
#[tactic(auto, unfolding(machine_spec::specs::Wiring::interrupt_level))]
pub fn interrupt_level(via: u8, serial: u8, switch: u8) -> u8
    requires { (via < 2) × (serial < 2) × (switch < 2) }
    ensures { result ≡ interrupt_level via serial switch }
{
    4 * switch + 2 * serial + if serial == 0 { via } else { 0 }
}
