//! The fresh machine, and whether a state is accepted.
#![tactic(auto)]

ghost use Rattle.std.specs.Prelude.{◌≡◌, true};
ghost use Rattle.clock_spec.specs.Store.{unused_clear};
ghost use Rattle.machine_spec.specs.Machine.{accepted_of, fresh_machine};

use clock_spec::Chip;
use disk_lines::DiskLines;
use machine_spec::Machine;

/// The fresh machine with one of the two clock chips.
pub fn fresh(chip: Chip) -> Machine
    ensures { result ≡ fresh_machine chip }
{
    Machine {
        via: via::fresh(),
        clock: clock::fresh(chip),
        disk: DiskLines::off(),
        inputs: [1, 1, 1, 1, 1, 0, 0],
        sense: [1; 32],
        drives: disk_drives::fresh(),
    }
}

/// Whether a run takes this state, where the cells that its chip does not have are known to hold 0.
pub fn accepted_cleared(machine: &Machine) -> bool
    requires { unused_clear machine.now.clock.store ≡ true }
    ensures { result ≡ accepted_of machine.now }
{
    let enable = machine_pins::wires(machine).enable;
    let inputs = levels::all_levels(&machine.inputs);
    let sense = levels::all_levels(&machine.sense);
    let via = via_flags::accepted(machine.via);
    let clock = clock_phase::accepted_phase(machine.clock.store.chip, machine.clock.phase, enable);
    let drives = disk_drives::accepted(machine.drives, machine_pins::strobe_levels(machine));
    inputs & sense & via & clock & drives
}

/// Whether a run takes this state.
#[tactic(auto, unfolding(machine_spec::specs::Machine::accepted_of))]
pub fn accepted(machine: &Machine) -> bool
    ensures { result ≡ accepted_of machine.now }
{
    clock_store::unused_clear(&machine.clock.store) && accepted_cleared(machine)
}
