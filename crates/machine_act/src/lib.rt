//! One item over a machine that is lent: its wait, its action, and then what the clock and the strobe make of it.
#![tactic(auto)]

ghost use Rattle.std.specs.Prelude.{◌≡◌, ◌<◌, true, length};
ghost use Rattle.levels.specs.Levels.{all_levels};
ghost use Rattle.item_spec.specs.Items.{ItemInRange};
ghost use Rattle.machine_spec.specs.Machine.{Levels};
ghost use Rattle.machine_spec.specs.Stages.{item_wait, after_wait};
ghost use Rattle.machine_spec.specs.Accesses.{via_read, iwm_read, keyboard_pulse};
ghost use Rattle.machine_spec.specs.Action.{acted_of};
ghost use Rattle.machine_write.specs.Values.{PhaseAccepted, step_with};
ghost use Rattle.machine_act.specs.Idle.{idled_by};

use clock::Clock;
use clock_command::Lookup;
use disk_lines::DiskLines;
use item_spec::Item;
use machine_spec::Machine;
use units::WaitTicks;

/// An item's wait.
#[tactic(auto, unfolding(machine_spec::specs::Stages::item_wait))]
pub fn wait_of(item: Item) -> WaitTicks
    ensures { result.0 ≡ item_wait item }
{
    match item {
        Item::ReadVia { wait, .. }
        | Item::ReadIwm { wait, .. }
        | Item::WriteVia { wait, .. }
        | Item::WriteIwm { wait, .. }
        | Item::Blank { wait }
        | Item::Second { wait }
        | Item::Line { wait, .. }
        | Item::Sense { wait, .. }
        | Item::Reset { wait }
        | Item::Power { wait, .. }
        | Item::Disk { wait, .. }
        | Item::Pulse { wait, .. } => wait,
    }
}

// The wait passes in the VIA and in the drives. Where both counters only count, and where no drive and no strobe waits, there is less to do.
#[inline(always)]
fn wait(machine: &mut Machine, wait: WaitTicks)
    ensures { machine.new ≡ after_wait wait.0 machine.old }
{
    if machine.via.only_counts(wait) {
        machine.via = machine.via.count(wait);
    } else {
        machine.via = machine.via.wait(wait);
    }
    if disk_drives::busy(machine.drives) {
        disk_drives::pass(&mut machine.drives, wait);
    }
}

// RD of a VIA register.
#[tactic(auto, unfolding(machine_spec::specs::Accesses::via_read, via::specs::Registers::register_read))]
fn read_via(machine: &mut Machine, register: u8) -> u8
    requires { all_levels machine.old.inputs ≡ true }
    ensures value { result ≡ (via_read register machine.old).value }
    ensures machine_after { machine.new ≡ (via_read register machine.old).machine }
{
    let line = clock_phase::shown_line(machine.clock.phase);
    let inputs = machine_pins::inputs_of(line, &machine.inputs);
    let value = via_registers::value_read(machine.via, register, inputs);
    machine.via.flags = via_registers::flags_read(machine.via, register);
    machine.via.pulses = via_registers::pulses_accessed(register, machine.via.pulses);
    value
}

// RD of an IWM location. Location 14 alone asks the sense.
#[tactic(auto, unfolding(machine_spec::specs::Accesses::iwm_read, disk_lines::specs::Lines::read_line))]
fn read_iwm(machine: &mut Machine, location: u8) -> u8
    requires location_in_range { location < 16 }
    requires levels { all_levels machine.old.sense ≡ true }
    ensures value { result ≡ (iwm_read location machine.old).value }
    ensures machine_after { machine.new ≡ (iwm_read location machine.old).machine }
{
    machine.disk = machine.disk.access(location);
    if location != 14 {
        return 255;
    }
    let at = machine
        .disk
        .sense_at(machine_pins::sel_of(machine.via.ports));
    let shown = disk_drives::shown(machine.drives, at, machine.sense[at as usize]);
    machine.disk.read(location, shown)
}

// KC. A pulse changes register 10, the flags and the count of pulses: to store the whole VIA anew would cost a quarter more.
#[tactic(auto, unfolding(machine_spec::specs::Accesses::keyboard_pulse))]
fn pulse(machine: &mut Machine, level: u8) -> u8
    requires { level < 2 }
    ensures value { result ≡ (keyboard_pulse level machine.old).value }
    ensures machine_after { machine.new ≡ (keyboard_pulse level machine.old).machine }
{
    let after = machine.via.pulse(level);
    machine.via.sr = after.via.sr;
    machine.via.flags = after.via.flags;
    machine.via.pulses = after.via.pulses;
    after.value
}

/// What an item does, its wait having passed; and the value read, 0 where nothing is read.
#[tactic(auto, unfolding(machine_spec::specs::Action::acted_of, clock_spec::specs::Shared::advance, clock_spec::specs::Shared::elapse, via::specs::Via::raised_of))]
#[inline(always)]
pub fn act(machine: &mut Machine, item: Item) -> u8
    requires in_range { ItemInRange item }
    requires levels { Levels machine.old }
    ensures value { result ≡ (acted_of machine.old item).value }
    ensures machine_after { machine.new ≡ (acted_of machine.old item).machine }
{
    match item {
        Item::ReadVia { register, .. } => return read_via(machine, register),
        Item::ReadIwm { location, .. } => return read_iwm(machine, location),
        Item::WriteVia {
            register,
            value,
            ..
        } => machine.via = machine.via.write(register, value),
        Item::WriteIwm { location, .. } => machine.disk = machine.disk.access(location),
        Item::Blank { .. } => machine.via.flags |= 2,
        Item::Second { .. } => {
            machine.via.flags |= 1;
            clock_store::add_seconds(&mut machine.clock.store, 1);
        }
        Item::Line { line, level, .. } => machine.inputs[line as usize] = level,
        Item::Sense {
            drive,
            register,
            level,
            ..
        } => machine.sense[(16 * drive + register) as usize] = level,
        Item::Reset { .. } => {
            machine.via = machine.via.reset();
            machine.disk = DiskLines::off();
        }
        Item::Power { seconds, .. } => {
            machine.via = via::fresh();
            machine.disk = DiskLines::off();
            machine.drives = disk_drives::power_cut(machine.drives);
            clock_store::add_seconds(&mut machine.clock.store, seconds);
        }
        Item::Disk {
            drive,
            insert,
            locked,
            sides,
            ..
        } => {
            machine.drives = disk_drives::place(
                machine.drives,
                drive == 1,
                insert == 1,
                locked == 1,
                sides == 1,
            );
        }
        Item::Pulse { level, .. } => return pulse(machine, level),
    }
    0
}

// What the clock makes of an item that writes to no VIA register: RS and PW alone move its wires, and leave enable undriven.
fn idle_where_undriven(clock: &mut Clock, item: Item)
    ensures { clock.new ≡ idled_by item clock.old }
{
    if let Item::Reset { .. } | Item::Power { .. } = item {
        clock.idle();
    }
}

/// Carries out an item with the values of its record, which it writes one after the other where it writes to a VIA register; and the value read, 0 where nothing is read.
pub fn step<L: Lookup>(machine: &mut Machine, item: Item, values: &[u8]) -> u8
    requires in_range { ItemInRange item }
    requires some_values { 0 < length values.now }
    requires levels { Levels machine.old }
    requires phase { PhaseAccepted machine.old }
    ensures value { result ≡ (step_with machine.old item values.now).value }
    ensures machine_after { machine.new ≡ (step_with machine.old item values.now).machine }
{
    wait(machine, wait_of(item));
    if let Item::WriteVia { register, .. } = item {
        machine_write::write::<L>(machine, register, values);
        return 0;
    }
    let disk = machine.disk;
    let ports = machine.via.ports;
    let value = act(machine, item);
    idle_where_undriven(&mut machine.clock, item);
    machine_write::strobe(machine, disk, ports);
    value
}
