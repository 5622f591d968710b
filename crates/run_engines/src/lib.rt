//! W-207: a run by the table and a run by the patterns, side by side.
#![tactic(auto)]

ghost use Rattle.std.specs.Prelude.{◌≡◌, length};
ghost use Rattle.run_spec.specs.Outcome.{ran_of, over, run_of};
ghost use Rattle.run_engines.specs.Engines.{Same};

use clock_command::{Lookup, Patterns, Table};
use machine_spec::Machine;
use run_spec::Ran;

/// What a run leaves, beside its answers.
#[derive(Clone, Copy)]
pub struct Reached {
    pub machine: Machine,
    pub ran: Ran,
}

/// What the two runs leave.
#[derive(Clone, Copy)]
pub struct Two {
    pub table: Reached,
    pub patterns: Reached,
}

// One list from one machine, by one way of looking commands up.
fn run_by<L: Lookup>(mut machine: Machine, list: &[u8], answers: &mut [u8]) -> Reached
    ensures ran { result.ran ≡ ran_of (run_of machine list.now (length answers.old)) }
    ensures machine_after { result.machine ≡ (run_of machine list.now (length answers.old)).machine }
    ensures answers_after { answers.new ≡ over (run_of machine list.now (length answers.old)) answers.old }
{
    let ran = run::run::<L>(&mut machine, list, answers);
    Reached { machine, ran }
}

/// One list from one machine, of either chip, by both ways of looking commands up, into two answer buffers that are alike.
// Two lent memories: the theorem `Same` compares them.
pub fn both(machine: Machine, list: &[u8], a: &mut [u8], b: &mut [u8]) -> Two
    requires { a.old ≡ b.old }
    ensures { Same result.table result.patterns a.new b.new }
{
    let table = run_by::<Table>(machine, list, a);
    let patterns = run_by::<Patterns>(machine, list, b);
    Two { table, patterns }
}
