//! What an item gets for an answer: its refusal by the state, or what is shown after it was carried out.
#![tactic(auto)]

ghost use Rattle.std.specs.Prelude.{◌≡◌, true, List, ℕ};
ghost use Rattle.levels.specs.Levels.{all_levels};
ghost use Rattle.clock.specs.declared.Clock.{Clock};
ghost use Rattle.disk_spec.specs.declared.Drives.{Drives};
ghost use Rattle.machine_spec.specs.declared.Machine.{Machine};
ghost use Rattle.machine_spec.specs.Stages.{refuses_of};
ghost use Rattle.machine_spec.specs.Step.{answer_of};
ghost use Rattle.machine_pins.specs.Board.{on_board};

use disk_spec::Drives;
use item_spec::{Item, Shown};
use machine_spec::Machine;
use refusal::Refusal;

/// The refusal of an item by a state with these drives, if there is one: a disk where one is, or none to take out.
#[tactic(auto, unfolding(machine_spec::specs::Stages::refuses_of))]
pub fn refuses(drives: Drives, item: Item) -> Option<Refusal>
    ensures { (m : Machine) → m.drives ≡ drives → result ≡ refuses_of m item }
{
    match item {
        Item::Disk { drive, insert, .. }
            if disk_drives::refuses_place(drives, drive == 1, insert == 1) => {
            Some(Refusal::DiskMismatch)
        }
        _ => None,
    }
}

/// What the answer to an item that was carried out shows: the board after it, and the value read. What stands beside the board has no part in it.
#[tactic(auto, unfolding(machine_spec::specs::Step::answer_of))]
pub fn answer(machine: &Machine, value: u8) -> Shown
    requires { all_levels machine.now.inputs ≡ true }
    ensures shown { result ≡ answer_of (record { machine = machine.now; value = value }) }
    ensures of_board { (clock : Clock) (sense : List ℕ) (drives : Drives) → result ≡ answer_of (record { machine = on_board machine.now clock sense drives; value = value }) }
{
    let [_, _, _, _, _, serial, switch] = machine.inputs;
    Shown {
        value,
        level: machine_pins::interrupt_level(via_flags::level(machine.via), serial, switch),
        lines: machine.disk.lines,
        sel: machine_pins::sel_of(machine.via.ports),
    }
}
