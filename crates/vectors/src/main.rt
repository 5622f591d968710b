//! Runs the script on standard input: the samples, as lines that do something or say something. docs/FORMATS.md has their language.
//! A write that fails is passed over, and a read that fails ends the input.
#![tactic(auto)]

ghost use Rattle.std.specs.Prelude.{◌≤◌, length};

use std::io::Read;
use vectors_operations::Order;

/// The longest script in bytes.
const LONGEST: usize = 65_535;

/// Makes the machine fresh, with the first chip.
fn fresh(image: &mut [u8]) {
    swarmtempo::swarmtempo_fresh(image, 20);
}

/// Runs a list through the C entry, and prints what its operation shows.
fn carry_out(rt: &impl Print, image: &mut [u8], op: u8, list: &[u8], answers: &mut [u8]) {
    let mut consumed = 0;
    let mut written = 0;
    let stop = swarmtempo::swarmtempo_run(image, list, answers, &mut consumed, &mut written);
    vectors_print::shown(rt, op, answers, stop, consumed, written);
}

/// A line of an answer room, whose bytes hold $ee, and a list; `None` where the line is bad.
fn raw(rt: &impl Print, image: &mut [u8], op: u8, text: &[u8]) -> Option<()> {
    let given = vectors_words::read_list(text)?;
    let mut answers = [0xee; 32];
    carry_out(
        rt,
        image,
        op,
        &given.list[..given.size],
        &mut answers[..given.room],
    );
    Some(())
}

// The handle, the image and the order have an owner each: they travel together through three functions of this program, and a struct of them would be no plainer.

/// One access: the value of its answer.
fn once(rt: &impl Print, image: &mut [u8], order: Order) -> u8 {
    let mut answers = [0; 8];
    carry_out(rt, image, order.op, &order.record(), &mut answers);
    answers[4]
}

/// The accesses of an operation: the value seen.
fn many(rt: &impl Print, image: &mut [u8], order: Order, value: u64) -> u64 {
    let mut byte = order.start(value);
    for k in 0..order.accesses() {
        let read = once(rt, image, order.access(k, byte));
        byte = vectors_operations::seen(order.op, k, byte, read);
    }
    byte
}

/// A line of an operation: the value seen then; `None` where the line is bad.
fn operation(rt: &impl Print, image: &mut [u8], order: Order, value: u64) -> Option<u64> {
    match order.op {
        b'm' | b'z' => vectors_operations::byte(image, order).map(u64::from),
        _ => Some(many(rt, image, order, value)),
    }
}

/// One line: the value seen then; `None` where the line is bad. An empty line makes the machine fresh.
fn line(rt: &impl Print, image: &mut [u8], text: &[u8], value: u64) -> Option<u64> {
    let Some(&first) = text.first() else {
        fresh(image);
        return Some(0);
    };
    match first {
        b'#' => Some(value),
        b'-' | b'.' => vectors_print::say(rt, text, value),
        b'x' | b'l' | b'e' => {
            raw(rt, image, first, text)?;
            Some(value)
        }
        _ => {
            let order = vectors_words::read_order(text)?;
            operation(rt, image, order, value)
        }
    }
}

/// The lines of the script, up to one that is bad.
fn run(rt: &impl Print, script: &[u8]) {
    let mut image = [0; image_layout::TAIL];
    fresh(&mut image);
    let mut value = 0;
    let mut number = 0;
    let mut at = 0;
    // Line by line as `line_end` has it, whose clause says where a line ends; what follows the last line feed is a line only where it is not empty.
    while at < script.len() {
        let end = vectors_words::line_end(script, at);
        number += 1;
        match line(rt, &mut image, &script[at..end], value) {
            Some(seen) => value = seen,
            None => {
                // A script line as `say` prints it, the number at `#`: the pieces are writes of their own.
                vectors_print::say(rt, b". line #: not understood", number);
                return;
            }
        }
        at = end + 1;
    }
}

/// Reads standard input until the room is full, it ends or a read fails: the number of bytes read.
// How much a read gives is the system's: what is left of the room is a slice, and the loop ends where no byte comes.
fn read_full(rt: &impl Input, text: &mut [u8]) -> usize
    ensures { result ≤ length text.new }
{
    let mut reader = rt.reader();
    let mut done = 0;
    while done < text.len() {
        match reader.read(&mut text[done..]) {
            Ok(0) | Err(_) => break,
            Ok(count) => done += count,
        }
    }
    done
}

fn main(rt: HostRuntime) {
    let mut text = [0; LONGEST + 1];
    let size = read_full(&rt, &mut text);
    if size > LONGEST {
        vectors_print::say(&rt, b". the script is too long", 0);
    } else {
        run(&rt, &text[..size]);
    }
}
