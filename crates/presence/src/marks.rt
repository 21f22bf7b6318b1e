// Marks: a word for each node tuple and each edge tuple of 0, at a place that its key gives. They are local to one check.
// The mark of node n in s is s × 65,536 + n; that of an edge tuple in record i is i × 65,536, where the record is read. 0 is no mark.
// What no mark shows is sought by a walk.
// An inner layer: what its functions require, their callers have shown; only the entry refuses.
ghost use Rattle.std.specs.Prelude.{ℕ, ◌≢◌, ◌≡◌, ◌≤◌, ◌<◌, get_or};
ghost use Rattle.model.specs.Keys.{most_name, node_key};
ghost use Rattle.model.specs.Tuples.{present};
ghost use Rattle.layouts.specs.Buffer.{capacity_of, tuples_of};
ghost use Rattle.words.specs.Words.{most_index};
ghost use Rattle.presence.specs.Presence.{Walkable, Sorted, MarksHold, MarksFit, mark_count, mark_tries, no_marks, with_mark, with_node_mark, with_edge_mark};
ghost use Rattle.presence.specs.Presence.{node_shown, edge_shown, node_mark, edge_mark, edge_record, node_slot, edge_slot, LooksFor, is_at};

use super::seek::{holds_from, is_at};
use model::{Key, NAME_COUNT};
use words::node_key;

// Places for marks.
pub const MARK_COUNT: usize = 4096;

// How many of them are looked at for one mark, and how far the next one is.
const MARK_TRIES: usize = 64;

const MARK_STEP: usize = 1021;

// What the words of a key are multiplied by for the place that is looked at first: s of a node, g and m of an edge.
const SPACE_FACTOR: usize = 5003;

const EDGE_FACTOR: usize = 3571;

const SECOND_FACTOR: usize = 2741;

// The mark of node n in s. By hand: the sum is shorter than a function of two names for it and for the word of a pair.
#[tactic(auto, unfolding(crate::specs::Presence::node_mark))]
fn node_mark(s: u32, n: u32) -> u32
    requires { (s ≤ most_name) × (n ≤ most_name) }
    ensures { result ≡ node_mark s n }
{
    s * NAME_COUNT + n
}

// The mark of the edge tuple of 0 in record i.
#[tactic(auto, unfolding(crate::specs::Presence::edge_mark))]
fn edge_mark(i: usize) -> u32
    requires { i ≤ most_index }
    ensures { result ≡ edge_mark i }
{
    (i as u32) * NAME_COUNT
}

// The record of an edge tuple's mark; 0, which is no record, for no mark and for the mark of a node.
#[tactic(auto, unfolding(crate::specs::Presence::edge_record))]
fn edge_record(w: u32) -> usize
    ensures { result ≡ edge_record w }
{
    if w % NAME_COUNT != 0 {
        return 0;
    }
    (w / NAME_COUNT) as usize
}

// The place where the mark of node n in s is sought first.
#[tactic(auto, unfolding(crate::specs::Presence::node_slot))]
fn node_slot(s: u32, n: u32) -> usize
    ensures { result ≡ node_slot s n }
{
    (SPACE_FACTOR * s as usize + n as usize) % MARK_COUNT
}

// The place where the mark of an edge tuple of 0 is sought first.
#[tactic(auto, unfolding(crate::specs::Presence::edge_slot))]
fn edge_slot(k: Key) -> usize
    ensures { result ≡ edge_slot k }
{
    let n = k.n as usize;
    let g = k.g as usize;
    let m = k.m as usize;
    (n + EDGE_FACTOR * g + SECOND_FACTOR * m) % MARK_COUNT
}

// The marks, 0 at a place without one.
#[derive(Drop)]
pub struct Marks {
    pub words: [u32; MARK_COUNT],
}

impl Marks {
    // No marks.
    pub fn new() -> Marks
        ensures { result.words ≡ no_marks }
    {
        Marks {
            words: [0; MARK_COUNT],
        }
    }

    // The mark at a place.
    fn at(&self, place: usize) -> u32
        requires { place < mark_count }
        ensures { result ≡ get_or self.now.words place 0 }
    {
        self.words[place]
    }

    // Puts a mark at the first place without one of those that are looked at from a place on; where all have one, no mark is put.
    fn put(&mut self, from: usize, w: u32)
        requires { from < mark_count }
        ensures { self.new.words ≡ with_mark mark_tries self.old.words from w }
    {
        let mut place = from;
        for _ in 0..MARK_TRIES {
            if self.at(place) == 0 {
                self.words[place] = w;
                return;
            }
            place = (place + MARK_STEP) % MARK_COUNT;
        }
    }

    // Marks a key without g, where it is a node's.
    #[tactic(auto, using(crate::proofs::Hints::node_slot_fits), unfolding(crate::specs::Presence::with_node_mark))]
    pub(crate) fn mark_node(&mut self, k: Key)
        requires { (k.s ≤ most_name) × (k.n ≤ most_name) }
        ensures { self.new.words ≡ with_node_mark self.old.words k }
    {
        if k.n == 0 {
            return;
        }
        self.put(node_slot(k.s, k.n), node_mark(k.s, k.n));
    }

    // Marks an edge tuple in record i, where it is one of 0.
    #[tactic(auto, using(crate::proofs::Hints::edge_slot_fits), unfolding(crate::specs::Presence::with_edge_mark))]
    pub(crate) fn mark_edge(&mut self, k: Key, i: usize)
        requires { i ≤ most_index }
        ensures { self.new.words ≡ with_edge_mark self.old.words k i }
    {
        if k.s != 0 {
            return;
        }
        self.put(edge_slot(k), edge_mark(i));
    }

    // Is one of the marks from a place on wanted: they are looked at up to one that is 0.
    // By hand: beside `put`, which writes at the first place that is free.
    fn shows<F: Fn(u32) -> bool>(&self, from: usize, is_wanted: F) -> bool
        requires { (from < mark_count) × ((j : ℕ) → F.pre is_wanted (get_or self.now.words j 0)) }
        ensures { LooksFor (F.post is_wanted) self.now.words from result }
    {
        let mut place = from;
        for _ in 0..MARK_TRIES {
            let w = self.at(place);
            if is_wanted(w) {
                return true;
            }
            if w == 0 {
                return false;
            }
            place = (place + MARK_STEP) % MARK_COUNT;
        }
        false
    }

    // Do the marks show node n in s.
    pub(crate) fn shows_node(&self, s: u32, n: u32) -> bool
        requires { (s ≤ most_name) × (n ≤ most_name) }
        ensures { result ≡ node_shown self.now.words s n }
    {
        let mark = node_mark(s, n);
        self.shows(node_slot(s, n), |w| w == mark)
    }

    // Do they show the edge tuple of 0 with the n, g, m of a key.
    pub(crate) fn shows_edge(&self, b: &[u32], k: Key) -> bool
        requires { Walkable b.now × MarksFit b.now self.now.words }
        ensures { result ≡ edge_shown b.now self.now.words k }
    {
        let edge = Key { s: 0, ..k };
        self.shows(
            edge_slot(k),
            |w|
                requires { Walkable b.now × (edge_record w ≤ capacity_of b.now) }
                ensures { result ≡ is_at b.entry.now (edge_record w) edge }
            { is_at(b, edge_record(w), edge) },
        )
    }

    // Is node n of s in the used chain: the marks are looked at first.
    pub(crate) fn has_node(&self, b: &[u32], s: u32, n: u32) -> bool
        requires { Sorted b.now × MarksHold b.now self.now.words × (s ≤ most_name) × (n ≤ most_name) × (n ≢ 0) }
        ensures { result ≡ present (node_key s n) (tuples_of b.now) }
    {
        self.shows_node(s, n) || holds_from(b, words::head_word(b, 1), node_key(s, n))
    }
}
