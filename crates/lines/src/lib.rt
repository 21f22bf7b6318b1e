#![tactic(auto)]
// The lines of a script, read as calls.
// An inner layer: what its functions require, their callers have shown; only the entry refuses.
mod arguments;
mod numbers;
mod words;

ghost use Rattle.std.specs.Prelude.{◌≡◌, ◌≤◌, length, drop};
ghost use Rattle.text.specs.Bytes.{before, line_feed};
ghost use Rattle.lines.specs.Calls.{call_of, complete, in_order, space_then_value, spaces, read_line};
ghost use Rattle.lines.specs.Places.{words_behind};

use arguments::{argument_in, field_in, space_in};
use letters::operator_number;
use model::{Call, EdgeName, MOST_NAME, NodeName, Refusal, Space};
use words::end_of;

// "names to 65,535, values to 4,294,967,295".
const MOST_VALUE: u32 = u32::MAX;

// What reading an argument finds.
// By hand: an enum, the form that the specification names for this place.
#[derive(Clone, Copy)]
pub enum Argument {
    // A number.
    Number(u32),
    // U.
    Universal,
    // `-`, which is nothing as a space.
    NoSelection,
    // No word is left.
    Missing,
    // A word that is neither a number nor U nor `-`.
    Unreadable,
}

// The line that begins at a place of the script, as that part of it: up to the line feed, or to the end.
// It is public for the crate above, which proves that the place is within the script.
// By hand: a place beside the script, the form that the specification names.
pub fn line_at(script: &[u8], from: usize) -> &[u8]
    requires { from ≤ length script.now }
    ensures { result.now ≡ before line_feed (drop from script.now) }
{
    let lines = &script[from..];
    &lines[..end_of(lines, b'\n')]
}

// The call, where nothing follows its last argument.
#[tactic(auto, using(crate::proofs::ArgumentLaws::something_follows, crate::proofs::ArgumentLaws::nothing_follows))]
fn completed(rest: &[u8], c: Call) -> Result<Call, Refusal>
    ensures { result ≡ complete c (words_behind rest.now) }
{
    if rest.is_empty() {
        Ok(c)
    } else {
        Err(Refusal::Unreadable)
    }
}

// "Arguments follow in the order above": n g m v, those that are read, and s.
fn in_order(rest: &[u8], o: u32) -> Result<Call, Refusal>
    ensures { result ≡ in_order o (words_behind rest.now) }
{
    let read = operators::reads_of(o);
    let (argument_n, after_n) = field_in(read.n, rest, MOST_NAME);
    let Argument::Number(n) = argument_n else {
        return Err(Refusal::Unreadable);
    };
    let (argument_g, after_g) = field_in(read.g, after_n, MOST_NAME);
    let Argument::Number(g) = argument_g else {
        return Err(Refusal::Unreadable);
    };
    let (argument_m, after_m) = field_in(read.m, after_g, MOST_NAME);
    let Argument::Number(m) = argument_m else {
        return Err(Refusal::Unreadable);
    };
    let (argument_v, after_v) = field_in(read.v, after_m, MOST_VALUE);
    let Argument::Number(v) = argument_v else {
        return Err(Refusal::Unreadable);
    };
    let (space, after_s) = space_in(after_v, operators::space_optional(o));
    let Some(s) = space else {
        return Err(Refusal::Unreadable);
    };
    // By hand: `as`, since the numbers are known to fit; `try_from` would have an error that no line reaches.
    let c = Call {
        operator: o,
        n: NodeName(n as u16),
        g: EdgeName(g as u16),
        m: NodeName(m as u16),
        v,
        s,
    };
    completed(after_s, c)
}

// A call that reads no edge and no second node.
fn node_call(operator: u32, n: u16, v: u32, s: Space) -> Call
    ensures { result ≡ call_of operator n 0 0 v s }
{
    Call {
        operator,
        n: NodeName(n),
        g: EdgeName(0),
        m: NodeName(0),
        v,
        s,
    }
}

// "52 s v".
fn space_then_value(rest: &[u8], o: u32) -> Result<Call, Refusal>
    ensures { result ≡ space_then_value o (words_behind rest.now) }
{
    let (space, after_s) = space_in(rest, false);
    let Some(s) = space else {
        return Err(Refusal::Unreadable);
    };
    let (argument_v, after_v) = argument_in(after_s, MOST_VALUE);
    let Argument::Number(v) = argument_v else {
        return Err(Refusal::Unreadable);
    };
    completed(after_v, node_call(o, 0, v, s))
}

// "SUS with a number is 57"; alone it is 56.
#[tactic(auto, unfolding(crate::specs::Calls::spaces, crate::specs::Places::words_behind))]
fn spaces_of(rest: &[u8]) -> Result<Call, Refusal>
    ensures { result ≡ spaces (words_behind rest.now) }
{
    if rest.is_empty() {
        return Ok(node_call(56, 0, 0, Space::Universe));
    }
    let (argument_n, after_n) = argument_in(rest, MOST_NAME);
    let Argument::Number(n) = argument_n else {
        return Err(Refusal::Unreadable);
    };
    completed(after_n, node_call(57, n as u16, 0, Space::Universe))
}

// The call that a line reads as, or refusal 11.
pub fn read_line(line: &[u8]) -> Result<Call, Refusal>
    ensures { result ≡ read_line line.now }
{
    let (letters, rest) = line.split_at(end_of(line, b' '));
    match operator_number(letters) {
        None => Err(Refusal::Unreadable),
        Some(52) => space_then_value(rest, 52),
        Some(56) => spaces_of(rest),
        Some(o) => in_order(rest, o),
    }
}
