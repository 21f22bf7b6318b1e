// The keys of the used chain: do they ascend, and is each one that a store may hold.
// An inner layer: what its functions require, their callers have shown; only the entry refuses.
ghost use Rattle.std.specs.Prelude.{◌≡◌, option_map, IfSome};
ghost use Rattle.layouts.specs.Buffer.{word, capacity_of};
ghost use Rattle.model.specs.Rules.{small_key};
ghost use Rattle.presence.specs.Presence.{Walkable, shaped_key, good_key, MarksHold, KeptHold};
ghost use Rattle.verify.specs.Checks.{may_meet, key_follows, starts_right, used_walk, used_run_of, UsedFound};

use super::chains::{Walk, Walked, step};
use model::{Key, MOST_NAME};
use presence::ends::take;
use presence::kept::KeptRecords;
use presence::marks::Marks;
use words::{capacity, node_key};

// Are the words of a key names, or 0.
#[tactic(auto, unfolding(model::specs::Rules::small_key))]
fn key_small(k: Key) -> bool
    ensures { result ≡ small_key k }
{
    k.s <= MOST_NAME && k.n <= MOST_NAME && k.g <= MOST_NAME && k.m <= MOST_NAME
}

// Does n = 0 make g and m 0, and is g 0 exactly when m is. By hand: as one expression in the definition's order, here and in `key_follows`, a check of a full store takes a quarter longer.
#[tactic(auto, unfolding(presence::specs::Presence::shaped_key, model::specs::Rules::no_edge_without_node, model::specs::Rules::edge_has_end))]
fn key_shaped(k: Key) -> bool
    ensures { result ≡ shaped_key k }
{
    if k.g == 0 {
        return k.m == 0;
    }
    k.n != 0 && k.m != 0
}

// Is a key one that a store may hold.
#[tactic(auto, unfolding(presence::specs::Presence::good_key))]
fn key_good(k: Key) -> bool
    ensures { result ≡ good_key k }
{
    key_small(k) && key_shaped(k)
}

// May a key follow another in a store: it is above it, and one that a store may hold.
#[tactic(auto, unfolding(crate::specs::Checks::key_follows))]
fn key_follows(key: Key, k: Key) -> bool
    ensures { result ≡ key_follows key k }
{
    key_good(k) && words::key_below(key, k)
}

// What the walk of the used chain finds, where the chain ends and its keys are right.
#[derive(Clone, Copy)]
pub struct Used {
    // What is found of the chain.
    pub walked: Walked,
    // Is all there that the tuples name, but for second ends that are kept.
    pub sure: bool,
    // The free chain, walked as far.
    pub free: Walk,
}

// Is there a first used record, with UNIVERSE's key.
#[tactic(auto, using(presence::proofs::Rest::record_inside), unfolding(crate::specs::Checks::starts_right))]
fn starts_right(b: &[u32]) -> bool
    requires { Walkable b.now }
    ensures { result ≡ starts_right b.now }
{
    let head = words::head_word(b, 1);
    head != 0 && words::key_same(words::key_of(b, head), node_key(0, 0))
}

// The walk of the free chain, at its head.
fn free_start(b: &[u32]) -> Walk
    requires { Walkable b.now }
    ensures { result ≡ record { at = word b.now 2; left = capacity_of b.now; last = 0 } }
{
    Walk {
        at: words::head_word(b, 2),
        left: capacity(b),
        last: 0,
    }
}

// May the walk meet a record, with so many to go.
#[tactic(auto, unfolding(crate::specs::Checks::may_meet))]
fn may_meet(c: usize, left: usize, at: usize) -> bool
    ensures { result ≡ may_meet c left at }
{
    at <= c && left != 0
}

// Walks the used chain over at most C records, and the free chain beside it; gives up where its keys do not ascend from (0,0,0,0), a store may not hold one, or a next is above C.
// It marks the tuples that others may name, but the first, and keeps the records whose second ends the marks do not show.
pub fn walk_used(b: &[u32], marks: &mut Marks, kept: &mut KeptRecords) -> Option<Used>
    requires { Walkable b.now × MarksHold b.now marks.old.words × KeptHold b.now kept.old × (kept.old.count ≡ 0) }
    ensures answer { option_map (λ u. u.walked) result ≡ used_walk b.now }
    ensures lent { IfSome result (λ u. UsedFound b.now marks.new.words kept.new u.sure u.free) }
    ensures run { record { used = result; marks = marks.new.words; kept = kept.new } ≡ used_run_of b.now marks.old.words kept.old }
{
    if !starts_right(b) {
        return None;
    }
    let c = capacity(b);
    let mut free = free_start(b);
    let mut sure = true;
    let mut left = c - 1;
    let mut last = words::head_word(b, 1);
    let mut at = chain::next_of(b, last);
    // By hand: the walk ends where the chain does; a range of turns would be a second end beside it.
    while at != 0 {
        if !may_meet(c, left, at) {
            return None;
        }
        let k = words::key_of(b, at);
        let after = chain::next_of(b, at);
        let key = words::key_of(b, last);
        if !key_follows(key, k) {
            return None;
        }
        sure = take(b, marks, kept, sure, key, k, at);
        free = step(b, free);
        last = at;
        at = after;
        left -= 1;
    }
    Some(Used {
        walked: Walked {
            count: c - left,
            last,
        },
        sure,
        free,
    })
}
