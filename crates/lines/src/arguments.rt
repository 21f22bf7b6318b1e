// The arguments of a call, each from the rest of the line that begins with the blank before it.
ghost use Rattle.std.specs.Prelude.{◌≡◌};
ghost use Rattle.model.specs.Keys.{most_name};
ghost use Rattle.lines.specs.Places.{words_behind, others, of_word, first_of, field_of, left_by, space_of};

use super::Argument;
use super::numbers::number_in;
use super::words::end_of;
use model::{MOST_NAME, Space, SpaceName};

// The argument that a word is.
fn of_word(word: &[u8], most: u32) -> Argument
    ensures { result ≡ of_word most word.now }
{
    if word == b"U".as_slice() {
        return Argument::Universal;
    }
    if word == b"-".as_slice() {
        return Argument::NoSelection;
    }
    match number_in(word, most) {
        Some(x) => Argument::Number(x),
        None => Argument::Unreadable,
    }
}

// The first argument of the rest of a line, and the rest behind it.
#[tactic(auto, unfolding(crate::specs::Places::first_of, crate::specs::Places::others, crate::specs::Places::words_behind))]
pub fn argument_in(rest: &[u8], most: u32) -> (Argument, &[u8])
    ensures argument { result.0 ≡ first_of most (words_behind rest.now) }
    ensures rest { words_behind result.1.now ≡ others (words_behind rest.now) }
{
    let Some((_, words)) = rest.split_first() else {
        return (Argument::Missing, rest);
    };
    let (word, after) = words.split_at(end_of(words, b' '));
    (of_word(word, most), after)
}

// A field that is read; one that is not has no argument, and is 0.
// By hand: a number and no Option, since a field that is not read may be any.
pub fn field_in(read: bool, rest: &[u8], most: u32) -> (Argument, &[u8])
    ensures argument { result.0 ≡ field_of read most (words_behind rest.now) }
    ensures rest { words_behind result.1.now ≡ left_by read (words_behind rest.now) }
{
    if !read {
        return (Argument::Number(0), rest);
    }
    argument_in(rest, most)
}

// The first argument as a space, where it is one, and the rest behind it; one that is missing is UNIVERSE where it is optional.
#[tactic(auto, unfolding(crate::specs::Places::first_of, crate::specs::Places::others, crate::specs::Places::space_of))]
pub fn space_in(rest: &[u8], optional: bool) -> (Option<Space>, &[u8])
    ensures space { result.0 ≡ space_of optional (first_of most_name (words_behind rest.now)) }
    ensures rest { words_behind result.1.now ≡ others (words_behind rest.now) }
{
    let (argument, after) = argument_in(rest, MOST_NAME);
    match argument {
        Argument::Number(x) => (Some(Space::Numbered(SpaceName(x as u16))), after),
        Argument::Universal => (Some(Space::Universe), after),
        Argument::NoSelection => (Some(Space::Nothing), after),
        Argument::Missing => (optional.then_some(Space::Universe), after),
        Argument::Unreadable => (None, after),
    }
}
