#![tactic(auto)]
// The used and free chains of the buffer.
// An inner layer: what its functions require, their callers have shown; only the entry refuses.
// By hand: that the chains are linked (`Linked`), as other facts about lent words and records of them (`Hint`), is required of the words and stands in no struct.
// A clause would read `chains.words.now` for each `b.now`, to be rid of one fact that is required; and a struct that is lent words to be written would have to say in each contract that they are still the same,
// as `Adds .lent` does for the line of `print`, or would be made anew for each search. So it is in the crates above.
ghost use Rattle.std.specs.Prelude.{◌≡◌, ◌+◌, ◌≤◌, ◌<◌};
ghost use Rattle.model.specs.Tuples.{present, value_at};
ghost use Rattle.layouts.specs.Buffer.{next, used_of, tuples_of, key_at};
ghost use Rattle.words.specs.Words.{Inside};
ghost use Rattle.chain.specs.Links.{both_ways, Linked, Hint, start_of, after_in, place_in, find_in, record_named, Linking, insert_after, Unlinking, remove_after};

use model::{Direction, Key, NIL};

// A power of two above the number of every record: the remainder by it is the number itself.
const ABOVE_RECORDS: usize = 4096;

// A place in the used chain: a record and the one after it.
// By hand: 0 is no record here and in every hint, as it is in the link words of the buffer that walks compare with.
#[derive(Clone, Copy)]
pub struct Place {
    pub before: usize,
    pub at: usize,
}

// Has a pair two keys, one for the edge each way: adjacent pairs.
#[tactic(auto, unfolding(crate::specs::Links::both_ways))]
pub fn both_ways(d: Direction) -> bool
    ensures { result ≡ both_ways d }
{
    matches!(d, Direction::Adjacent)
}

// The record that follows a record in its chain; 0 where the chain ends. Every walk along a chain goes on by this function.
pub fn next_of(b: &[u32], at: usize) -> usize
    requires { Inside b.now at }
    ensures { result ≡ next b.now at }
{
    words::next_of(b, at)
}

// The key of a used record, for walks. The remainder is the number itself: with it the place of the key is computed apart from
// the place of next, and a walk waits for one operation less between a link and the following one.
#[tactic(auto, using(crate::proofs::Places::same_inside, crate::proofs::Places::same_key_at))]
pub fn used_key(b: &[u32], at: usize) -> Key
    requires { Linked b.now × Inside b.now at }
    ensures { result ≡ key_at b.now at }
{
    words::key_of(b, at % ABOVE_RECORDS)
}

// The record that a search for a key starts behind: the hint, where its key is below; else 0.
fn start_of(b: &[u32], hint: usize, k: Key) -> usize
    requires { Linked b.now × Hint b.now hint }
    ensures { result ≡ start_of (key_at b.now) hint k }
{
    if hint == 0 {
        return 0;
    }
    if words::key_below(used_key(b, hint), k) {
        return hint;
    }
    0
}

// The record after a used record; the first one after 0.
pub fn after(b: &[u32], before: usize) -> usize
    requires { Linked b.now × Hint b.now before }
    ensures { result ≡ after_in b.now before }
{
    if before == 0 {
        return words::head_word(b, 1);
    }
    next_of(b, before)
}

// The place of a key: the last record whose key is below it, and the record after that.
// The hint is a used record, or 0: where its key is below, the walk starts behind it and not at the first record.
pub fn seek(b: &[u32], hint: usize, k: Key) -> Place
    requires { Linked b.now × Hint b.now hint }
    ensures { result ≡ place_in (key_at b.now) k 0 (used_of b.now) }
{
    let mut before = start_of(b, hint, k);
    let mut at = after(b, before);
    while at != 0 {
        let next = next_of(b, at);
        if !words::key_below(used_key(b, at), k) {
            break;
        }
        before = at;
        at = next;
    }
    Place { before, at }
}

// A free record is taken, written whole, and linked after record `before`.
pub fn insert_after(b: &mut [u32], before: usize, k: Key, v: u32)
    requires { Linking b.old before }
    ensures { b.new ≡ insert_after b.old before k v }
{
    let taken = words::head_word(b, 2);
    let free = next_of(b, taken);
    let after = next_of(b, before);
    let used = words::head_word(b, 3);
    words::put_head_word(b, 2, free);
    words::put_tuple(b, taken, k, v);
    words::put_next(b, taken, after);
    words::put_next(b, before, taken);
    words::put_head_word(b, 3, used + 1);
}

// The record after record `before` is unlinked and put first in the free chain.
pub fn remove_after(b: &mut [u32], before: usize)
    requires { Unlinking b.old before }
    ensures { b.new ≡ remove_after b.old before }
{
    let gone = next_of(b, before);
    let after = next_of(b, gone);
    let free = words::head_word(b, 2);
    let used = words::head_word(b, 3);
    words::put_next(b, before, after);
    words::put_next(b, gone, free);
    words::put_head_word(b, 2, gone);
    words::put_head_word(b, 3, used - 1);
}

// The record that holds a key.
pub fn find(b: &[u32], hint: usize, k: Key) -> Option<usize>
    requires { Linked b.now × Hint b.now hint }
    ensures { result ≡ record_named (find_in (key_at b.now) k (used_of b.now)) }
{
    let at = seek(b, hint, k).at;
    if at == 0 {
        return None;
    }
    if words::key_same(k, used_key(b, at)) {
        return Some(at);
    }
    None
}

// Is there a tuple with this key.
#[tactic(auto, using(crate::proofs::Found::has_found))]
pub fn has(b: &[u32], hint: usize, k: Key) -> bool
    requires { Linked b.now × Hint b.now hint }
    ensures { result ≡ present k (tuples_of b.now) }
{
    find(b, hint, k).is_some()
}

// The value at a key; NIL where the key is missing.
// By hand: NIL as in the definition, and no Option.
pub fn value_at(b: &[u32], hint: usize, k: Key) -> u32
    requires { Linked b.now × Hint b.now hint }
    ensures { result ≡ value_at k (tuples_of b.now) }
{
    match find(b, hint, k) {
        Some(at) => words::value_of(b, at),
        None => NIL,
    }
}
