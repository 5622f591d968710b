//! The run from the fresh machine, with demand 3 in its contract.
#![tactic(auto)]

ghost use Rattle.std.specs.Prelude.{◌≡◌, ◌≤◌, length};
ghost use Rattle.machine_spec.specs.Machine.{fresh_machine};
ghost use Rattle.run_spec.specs.Outcome.{ran_of, over, run_of};
ghost use Rattle.demand3.specs.Runs.{Run3};

use clock_command::Table;
use clock_spec::Chip;
use machine_spec::Machine;
use run_spec::Ran;

/// Runs the list from the fresh machine: what `run` reports, the machine reached, and demand 3 of that machine.
pub fn run_fresh(chip: Chip, list: &[u8], answers: &mut [u8]) -> (Ran, Machine)
    ensures value { result.0 ≡ ran_of (run_of (fresh_machine chip) list.now (length answers.old)) }
    ensures machine_after { result.1 ≡ (run_of (fresh_machine chip) list.now (length answers.old)).machine }
    ensures answers_after { answers.new ≡ over (run_of (fresh_machine chip) list.now (length answers.old)) answers.old }
    ensures written_in_bounds { result.0.written ≤ length answers.old }
    ensures run3 { Run3 (fresh_machine chip) list.now (length answers.old) result.1 }
{
    let mut machine = machine::fresh(chip);
    let ran = run::run::<Table>(&mut machine, list, answers);
    (ran, machine)
}
