//! The words of a script's lines: the numbers after a line's first character, and the line as an operation or as a list of items.
#![tactic(auto)]

ghost use Rattle.std.specs.Prelude.{◌≡◌, ◌+◌, ◌≤◌, false, true, length, IfSome};
ghost use Rattle.vectors_words.specs.Words.{spaced_of, line_end_of, grown_of, word_of, number_of, order_read};

use arrayvec::ArrayVec;
use vectors_operations::Order;

/// A number of a line, and the place after it. One that is too large, or is no number, is 65,536 or more.
// No `Option` stands for that, since `order_read` hands such a number of `m` and `z` on.
#[derive(Clone, Copy)]
struct Read {
    value: u64,
    end: usize,
}

/// A line's answer room in bytes, and its list: the first `size` bytes of `list`.
// An `ArrayVec` is not `Copy`, so the list has its size beside it.
#[derive(Clone, Copy)]
pub struct Given {
    pub room: usize,
    pub size: usize,
    pub list: [u8; 32],
}

/// Whether the text ends before `at` or has a space there.
#[tactic(auto, unfolding(crate::specs::Words::spaced_of))]
pub fn spaced(text: &[u8], at: usize) -> bool
    ensures { result ≡ spaced_of text.now at }
{
    match text.get(at) {
        Some(&c) => c == b' ',
        None => true,
    }
}

/// A number with one character more: a digit, or, where it is the first, a capital letter, which is its ASCII byte.
#[tactic(auto, unfolding(crate::specs::Words::grown_of))]
fn grown(n: u64, c: u8, hex: bool, first: bool) -> u64
    ensures { result ≡ grown_of n c hex first }
{
    if n > 65535 {
        return n;
    }
    match c {
        b'0'..=b'9' if hex => n * 16 + u64::from(c - b'0'),
        b'0'..=b'9' => n * 10 + u64::from(c - b'0'),
        b'A'..=b'Z' if first => u64::from(c),
        b'a'..=b'f' if hex => n * 16 + u64::from(c - b'a' + 10),
        _ => 65536,
    }
}

/// The number of a word, grown from `start`. `$` before it makes it one in hexadecimal.
fn value(start: u64, word: &[u8]) -> u64
    ensures { result ≡ word_of start false true word.now }
{
    let mut value = start;
    let mut hex = false;
    let mut first = true;
    for &c in word {
        if first && c == b'$' {
            hex = true;
        } else {
            value = grown(value, c, hex, first);
        }
        first = false;
    }
    value
}

/// The number after the space at `at`, 0 at the end of the text.
fn number(text: &[u8], at: usize) -> Read
    requires { at ≤ length text.now + 1 }
    ensures { result ≡ number_of text.now at }
{
    let rest = text.get(at + 1..).unwrap_or(&[]);
    let end = rest.iter().position(|&c| c == b' ').unwrap_or(rest.len());
    let start = if spaced(text, at) { 0 } else { 65536 };
    Read {
        value: value(start, &rest[..end]),
        end: at + 1 + end,
    }
}

/// A line of an operation and its numbers; `None` where the line is bad.
#[tactic(auto, unfolding(crate::specs::Words::order_read))]
pub fn read_order(text: &[u8]) -> Option<Order>
    requires { 1 ≤ length text.now }
    ensures { result ≡ order_read text.now }
{
    let first = number(text, 1);
    let second = number(text, first.end);
    let order = Order {
        op: text[0],
        a: first.value,
        b: second.value,
    };
    let good = text.len() <= second.end && vectors_operations::known(order.op, order.a, order.b);
    good.then_some(order)
}

/// The bytes of a line from `from` on; `None` where one is no byte, or there are more than 32.
#[tactic(auto, unfolding(crate::specs::Words::number_of))]
fn bytes(text: &[u8], from: usize) -> Option<ArrayVec<u8, 32>> {
    let mut list = ArrayVec::new();
    let mut at = from;
    // the next number begins where this one ends, whatever its length
    while at < text.len() {
        let number = number(text, at);
        let byte = u8::try_from(number.value).ok()?;
        list.try_push(byte).ok()?;
        at = number.end;
    }
    Some(list)
}

/// A line of an answer room and a list; `None` where the line is bad.
pub fn read_list(text: &[u8]) -> Option<Given>
    ensures room_bound { IfSome result (λ given. given.room ≤ 32) }
    ensures size_in_bounds { IfSome result (λ given. given.size ≤ length given.list) }
{
    let first = number(text, 1);
    if first.value > 32 {
        return None;
    }
    let bytes = bytes(text, first.end)?;
    let size = bytes.len();
    let mut list = [0; 32];
    list[..size].copy_from_slice(bytes.as_slice());
    Some(Given {
        room: first.value as usize,
        size,
        list,
    })
}

/// The end of the line that begins at `at`: the place of its line feed, else the length.
pub fn line_end(s: &[u8], at: usize) -> usize
    requires { at ≤ length s.now }
    ensures value { result ≡ line_end_of s.now at }
    ensures lower_bound { (at ≤ result) × (result ≤ length s.now) }
{
    let rest = &s[at..];
    let feed = rest.iter().position(|&c| c == b'\n');
    at + feed.unwrap_or(rest.len())
}
