//! What the clock and the strobe make of an item once its action is over, and the values that one record writes to a VIA register, one after the other: a WR has one, an MW up to 64.
#![tactic(auto)]

ghost use Rattle.std.specs.Prelude.{length, ◌≡◌, true, not, eqb, ◌&&◌, ◌<◌};
ghost use Rattle.disk_lines.specs.Lines.{lstrb};
ghost use Rattle.disk_spec.specs.Watched.{watched_of};
ghost use Rattle.via.specs.Writes.{ports_written};
ghost use Rattle.machine_spec.specs.Pins.{sel_of};
ghost use Rattle.machine_spec.specs.Stages.{after_strobe};
ghost use Rattle.machine_spec.specs.Step.{after_items};
ghost use Rattle.machine_write.specs.Values.{PhaseAccepted, via_after, moves_sel, writes_of};

use clock_command::Lookup;
use disk_lines::{DiskLines, Line};
use machine_spec::Machine;
use via::{Ports, Via};

/// The strobe compares its levels with what they were before the item, with these disk lines and ports. LSTRB is asked first: compiled code makes all seven levels wherever they are named,
/// a fifth of a VB.
#[inline(always)]
pub fn strobe(machine: &mut Machine, disk: DiskLines, ports: Ports)
    ensures { machine.new ≡ after_strobe (watched_of disk (sel_of ports)) machine.old }
{
    let was = disk.is_on(Line::Lstrb);
    let is = machine.disk.is_on(Line::Lstrb);
    if was | is {
        let before = disk_strobe::watched_of(disk, machine_pins::sel_of(ports));
        let after = machine_pins::strobe_levels(machine);
        disk_drives::look(&mut machine.drives, before, after);
    } else {
        machine.drives.strobe = disk_strobe::off();
    }
}

// The ports once a value is written to a register.
#[tactic(auto, unfolding(via::specs::Writes::ports_written))]
fn ports_written(ports: Ports, register: u8, value: u8) -> Ports
    ensures { result ≡ ports_written register value ports }
{
    match register {
        0 => Ports {
            outb: value,
            ..ports
        },
        1 | 15 => Ports {
            outa: value,
            ..ports
        },
        2 => Ports {
            dirb: value,
            ..ports
        },
        3 => Ports {
            dira: value,
            ..ports
        },
        _ => ports,
    }
}

/// The VIA after the values.
pub fn via_after(via: Via, register: u8, values: &[u8]) -> Via
    ensures { result ≡ via_after register values.now via }
{
    let mut after = via;
    for &value in values {
        after = after.write(register, value);
    }
    after
}

/// Whether SEL has another level than this after one of the values.
pub fn moves_sel(ports: Ports, register: u8, values: &[u8], sel: bool) -> bool
    ensures { result ≡ moves_sel register values.now ports sel }
{
    for &value in values {
        let after = ports_written(ports, register, value);
        if (machine_pins::sel_of(after) == 1) != sel {
            return true;
        }
    }
    false
}

// The values where LSTRB is on and none of them moves a wire of the clock. The strobe looks at the levels before and after them all; one that SEL has moved under, and be it for a moment,
// is spoilt.
#[inline(never)]
fn write_under_strobe(machine: &mut Machine, register: u8, values: &[u8])
    requires no_wire { (not (eqb register 0) && not (eqb register 2)) ≡ true }
    requires some_values { 0 < length values.now }
    requires lit { eqb (lstrb machine.old.disk) 1 ≡ true }
    requires phase { PhaseAccepted machine.old }
    ensures { machine.new ≡ after_items machine.old (writes_of register values.now) }
{
    let ports = machine.via.ports;
    machine.via = via_after(machine.via, register, values);
    if moves_sel(ports, register, values, machine_pins::sel_of(ports) == 1) {
        let spoilt = disk_strobe::off();
        machine.drives.strobe = spoilt;
    } else {
        strobe(machine, machine.disk, ports);
    }
}

/// Writes the values to a VIA register, each a WR of its own with no wait. Port B and its direction move the clock's wires alone, the other registers at most SEL, at which the
/// strobe looks while LSTRB is on; where it sees nothing move, one look stands for all.
pub fn write<L: Lookup>(machine: &mut Machine, register: u8, values: &[u8])
    requires { PhaseAccepted machine.old }
    ensures { machine.new ≡ after_items machine.old (writes_of register values.now) }
{
    if values.is_empty() {
        return;
    }
    let mut via = machine.via;
    if (register != 0) & (register != 2) {
        if machine.disk.is_on(Line::Lstrb) {
            write_under_strobe(machine, register, values);
        } else {
            for &value in values {
                via = via.write(register, value);
            }
            machine.via = via;
            strobe(machine, machine.disk, via.ports);
        }
    } else {
        for &value in values {
            let line = clock_phase::shown_line(machine.clock.phase);
            let before = machine_pins::wires_of(via.ports, line);
            via = via.write(register, value);
            let after = machine_pins::wires_of(via.ports, line);
            machine.clock.look::<L>(before, after);
        }
        machine.via = via;
        strobe(machine, machine.disk, via.ports);
    }
}
