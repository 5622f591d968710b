//! What is printed of a run: the bytes of an answer, the line of the run, a script line's words. A write that fails is passed over.
#![tactic(auto)]

ghost use Rattle.std.specs.Prelude.{◌≡◌, cond, ◌≤◌, length, Some, None};
ghost use Rattle.vectors_words.specs.Words.{spaced_of};

// Each piece is a write of its own, so that a write that fails takes no other piece with it.

/// Prints a number after a word.
fn number(rt: &impl Print, word: &str, number: u64) {
    let _ = print!(rt; "{word}");
    let _ = print!(rt; "{number}");
}

/// Prints bytes in hexadecimal, a space after each.
fn dump(rt: &impl Print, answers: &[u8]) {
    for answer in answers {
        let _ = print!(rt; "{answer:02x}");
        let _ = print!(rt; " ");
    }
}

// The stop is the number that the C entry gave.

/// Prints with `l` the bytes of a list's first answer, with `e` the bytes of the answer room and the line of the run, with any other operation
/// nothing.
pub fn shown(rt: &impl Print, op: u8, answers: &[u8], stop: u8, consumed: u64, written: u64) {
    match op {
        b'l' => {
            if let Some(first) = answers.get(..8) {
                dump(rt, first);
                let _ = println!(rt);
            }
        }
        b'e' => {
            dump(rt, answers);
            number(rt, "stop ", u64::from(stop));
            number(rt, " consumed ", consumed);
            number(rt, " written ", written);
            let _ = println!(rt);
        }
        _ => (),
    }
}

/// Prints one character, or the value in its place: `@` in two hexadecimal digits, `#` in decimal, `%` its bit 7.
fn place(rt: &impl Print, c: u8, value: u64) {
    let _ = match c {
        b'@' => print!(rt; "{value:02x}"),
        b'#' => print!(rt; "{value}"),
        b'%' => {
            let bit = value / 128;
            print!(rt; "{bit}")
        }
        _ => rt.write_all(&[c]),
    };
}

/// Prints the text of a line, and a space or, where the line begins with `.`, the line's end. The value as it was, or `None` where the line is bad.
pub fn say(rt: &impl Print, text: &[u8], value: u64) -> Option<u64>
    requires { 1 ≤ length text.now }
    ensures { result ≡ cond (spaced_of text.now 1) (Some value) None }
{
    if !vectors_words::spaced(text, 1) {
        return None;
    }
    for &c in text.iter().skip(2) {
        place(rt, c, value);
    }
    let last = if text[0] == b'.' { b'\n' } else { b' ' };
    let _ = rt.write_all(&[last]);
    Some(value)
}
