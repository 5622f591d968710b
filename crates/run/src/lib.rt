//! The run: a machine, a list of items and an answer buffer; the stop number, the counts and the next machine.
#![tactic(auto)]

ghost use Rattle.std.specs.Prelude.{◌≡◌, true, ◌≤◌, length};
ghost use Rattle.machine_spec.specs.Machine.{accepted_of};
ghost use Rattle.run_spec.specs.Outcome.{ran_of, over, run_of};

use clock_command::Lookup;
use machine_spec::Machine;
use refusal::Refusal;
use run_spec::Ran;

/// Runs the list from a machine that is known to be accepted.
pub fn run_accepted<L: Lookup>(machine: &mut Machine, list: &[u8], answers: &mut [u8]) -> Ran
    requires { accepted_of machine.old ≡ true }
    ensures value { result ≡ ran_of (run_of machine.old list.now (length answers.old)) }
    ensures machine_after { machine.new ≡ (run_of machine.old list.now (length answers.old)).machine }
    ensures answers_after { answers.new ≡ over (run_of machine.old list.now (length answers.old)) answers.old }
    ensures written_in_bounds { result.written ≤ length answers.old }
{
    let mut rest = list;
    let mut written = 0;
    let mut stop = None;
    // a record takes so many bytes as it says: what is left of the list is a slice, and no index counts. The label names the loop in the proofs, whichever variables it has
    'records: while !rest.is_empty() {
        if answers.len() - written < 8 {
            stop = Some(Refusal::NoRoom);
            break;
        }
        let Some(n) = item_record::frame(rest) else {
            let no = item_record::answer_bytes(Err(Refusal::CutRecord));
            item_record::put(answers, written, no);
            written += 8;
            stop = Some(Refusal::CutRecord);
            break;
        };
        let answer = run_record::turn::<L>(machine, &rest[2..n]);
        item_record::put(answers, written, item_record::answer_bytes(answer));
        written += 8;
        rest = &rest[n..];
    }
    Ran {
        stop,
        consumed: list.len() - rest.len(),
        written,
    }
}

/// Runs the list from the machine. It stops at the end of the list, at a cut record or where there is no room; a machine that is not accepted is left as it is, and nothing is read or written.
pub fn run<L: Lookup>(machine: &mut Machine, list: &[u8], answers: &mut [u8]) -> Ran
    ensures value { result ≡ ran_of (run_of machine.old list.now (length answers.old)) }
    ensures machine_after { machine.new ≡ (run_of machine.old list.now (length answers.old)).machine }
    ensures answers_after { answers.new ≡ over (run_of machine.old list.now (length answers.old)) answers.old }
    ensures written_in_bounds { result.written ≤ length answers.old }
{
    if machine::accepted(machine) {
        run_accepted::<L>(machine, list, answers)
    } else {
        Ran {
            stop: Some(Refusal::NotAccepted),
            consumed: 0,
            written: 0,
        }
    }
}
