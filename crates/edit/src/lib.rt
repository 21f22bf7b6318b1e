#![tactic(auto)]
// Tuples counted, added, set and removed.
// A hint is a used record, or 0: the walk for a key starts behind it where its key is below.
// An inner layer: what its functions require, their callers have shown; only the entry refuses.
// By hand: facts about the lent words stand in no struct; chain says why.
ghost use Rattle.std.specs.Prelude.{◌≡◌, false, length};
ghost use Rattle.model.specs.Keys.{space_key};
ghost use Rattle.model.specs.Tuples.{present, add, remove};
ghost use Rattle.layouts.specs.Buffer.{next, key_at, used_of, tuples_of};
ghost use Rattle.chain.specs.Links.{Linked, Hint, KeepsHints, place_in, Edited, Unlinking};
ghost use Rattle.taken.specs.Selections.{taken_by};
ghost use Rattle.edit.specs.Edits.{Adding, Assigned, Turned, sweep_start};

use model::{Key, NIL};
use taken::{Selection, Span};

// How many tuples there are: word 3.
#[tactic(auto, using(crate::proofs::Built::tuples_counted, crate::proofs::Built::count_fits))]
pub fn tuple_count(b: &[u32]) -> u32
    requires { Linked b.now }
    ensures { result ≡ length (tuples_of b.now) }
{
    words::head_word(b, 3) as u32
}

// Is a key present, by the record at its place.
// By hand: beside `chain::find`, which answers with the record.
pub fn held_at(b: &[u32], k: Key, at: usize) -> bool
    requires { Linked b.now × (at ≡ (place_in (key_at b.now) k 0 (used_of b.now)).at) }
    ensures { result ≡ present k (tuples_of b.now) }
{
    at != 0 && words::key_same(k, chain::used_key(b, at))
}

// Adds a tuple, NIL, where its key is missing; a present one keeps its value.
pub fn add_missing(b: &mut [u32], hint: usize, k: Key)
    requires { Adding b.old k × Hint b.old hint }
    ensures edited { Edited b.old b.new (add k (tuples_of b.old)) }
    ensures hints { KeepsHints b.old b.new }
{
    let place = chain::seek(b, hint, k);
    if held_at(b, k, place.at) {
        return;
    }
    chain::insert_after(b, place.before, k, NIL);
}

// Sets the value of a key; a key that is missing stays so. No word is written but the value word of the record that holds the key.
pub fn assign_value(b: &mut [u32], hint: usize, k: Key, v: u32)
    requires { Linked b.old × Hint b.old hint }
    ensures { Assigned b.old k v b.new }
{
    if let Some(at) = chain::find(b, hint, k) {
        words::put_value(b, at, v);
    }
}

// The tuple of record `at`, whose key is k, is removed where the selection takes it; the answer is the record that then stands before the next.
#[tactic(auto, using(crate::proofs::Sweeps::turned_taken, crate::proofs::Sweeps::turned_left))]
fn keep_or_remove(b: &mut [u32], sel: Selection, before: usize, at: usize, k: Key) -> usize
    requires { Unlinking b.old before × (at ≡ next b.old before) × (k ≡ key_at b.old at) }
    ensures { Turned b.old sel before at result b.new }
{
    if taken::takes(sel, k) {
        chain::remove_after(b, before);
        return before;
    }
    at
}

// The record that a sweep of a span starts behind: the last one below it; the first one where none is below.
#[tactic(auto, using(crate::proofs::Sweeps::behind_first, crate::proofs::Sweeps::behind_placed))]
fn start_behind(b: &[u32], hint: usize, span: Span) -> usize
    requires { Linked b.now × Hint b.now hint }
    ensures { result ≡ sweep_start b.now span }
{
    let place = chain::seek(b, hint, words::node_key(span.s, span.n));
    if place.before == 0 {
        return words::head_word(b, 1);
    }
    place.before
}

// Removes in one walk every tuple that the selection takes; it may not take UNIVERSE.
// The walk goes over the selection's span and no further.
pub fn sweep(b: &mut [u32], hint: usize, sel: Selection)
    requires { Linked b.old × Hint b.old hint × (taken_by sel (space_key 0) ≡ false) }
    ensures { Edited b.old b.new (remove (taken_by sel) (tuples_of b.old)) }
{
    let span = taken::span_of(sel);
    let mut before = start_behind(b, hint, span);
    let mut at = chain::next_of(b, before);
    while at != 0 {
        let after = chain::next_of(b, at);
        let k = words::key_of(b, at);
        if taken::is_beyond(span, k) {
            return;
        }
        before = keep_or_remove(b, sel, before, at, k);
        at = after;
    }
}
