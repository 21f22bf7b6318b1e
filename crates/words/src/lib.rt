#![tactic(auto)]
// One word or one record of the buffer: read and written.
// An inner layer: what its functions require, their callers have shown; only the entry refuses.
// By hand: that a record is within the buffer (`Inside`) is about a number and lent words, and stands in no struct; chain says why.
ghost use Rattle.std.specs.Prelude.{◌≡◌, ◌+◌, ◌≤◌, ◌<◌, length, set};
ghost use Rattle.layouts.specs.Buffer.{word, head_words, record_words, fits_length, capacity_of, record_start, word_of, next, key_at, tuple_at};
ghost use Rattle.model.specs.Ordered.{is_less};
ghost use Rattle.model.specs.Keys.{node_key, compare_keys, same_key};
ghost use Rattle.words.specs.Words.{most_index, Inside, put_word, put_next, put_value, put_tuple, reversed};

use model::Key;

// Words before the first record, and words of a record.
const HEAD_WORDS: usize = 4;

const RECORD_WORDS: usize = 6;

// The lengths that a store can have.
const LEAST_LENGTH: usize = 10;

const MOST_LENGTH: usize = 12297;

// The places of the words of a record: next, the four of its key, the value.
const NEXT: usize = 0;

const SPACE: usize = 1;

const NODE: usize = 2;

const EDGE: usize = 3;

const SECOND: usize = 4;

const VALUE: usize = 5;

// Can a buffer of this length be a store.
#[tactic(auto, unfolding(layouts::specs::Buffer::fits_length))]
pub fn fits_length(b: &[u32]) -> bool
    ensures { result ≡ fits_length b.now }
{
    LEAST_LENGTH <= b.len() && b.len() <= MOST_LENGTH
}

// C: how many records the buffer has room for.
#[tactic(auto, unfolding(layouts::specs::Buffer::capacity_of))]
pub fn capacity(b: &[u32]) -> usize
    requires { head_words ≤ length b.now }
    ensures { result ≡ capacity_of b.now }
{
    (b.len() - HEAD_WORDS) / RECORD_WORDS
}

// The key (s,n,0,0): node n in s, and with n = 0 space s.
pub fn node_key(s: u32, n: u32) -> Key
    ensures { result ≡ node_key s n }
{
    Key { s, n, g: 0, m: 0 }
}

// The key of the edge the other way.
pub fn reversed(k: Key) -> Key
    ensures { result ≡ reversed k }
{
    Key {
        n: k.m,
        m: k.n,
        ..k
    }
}

// One of the words 0 to 3.
pub fn head_word(b: &[u32], at: usize) -> usize
    requires { at < length b.now }
    ensures { result ≡ word b.now at }
{
    b[at] as usize
}

// One of the words 0 to 3, written.
pub fn put_head_word(b: &mut [u32], at: usize, w: usize)
    requires { (at < length b.old) × (w ≤ most_index) }
    ensures { b.new ≡ set b.old at w }
{
    b[at] = w as u32;
}

// Where a word of record i stands, by its place in the record.
fn place_of(b: &[u32], i: usize, place: usize) -> usize
    requires { Inside b.now i × (place < record_words) }
    ensures { result ≡ record_start i + place }
{
    HEAD_WORDS + RECORD_WORDS * (i - 1) + place
}

// A word of record i, by its place in the record.
#[tactic(auto, unfolding(layouts::specs::Buffer::word_of))]
fn word_of(b: &[u32], i: usize, place: usize) -> u32
    requires { Inside b.now i × (place < record_words) }
    ensures { result ≡ word_of b.now i place }
{
    let at = place_of(b, i, place);
    b[at]
}

// A word of record i, written.
#[tactic(auto, unfolding(crate::specs::Words::put_word))]
fn put_word(b: &mut [u32], i: usize, place: usize, w: u32)
    requires { Inside b.old i × (place < record_words) }
    ensures { b.new ≡ put_word b.old i place w }
{
    let at = place_of(b, i, place);
    b[at] = w;
}

// The record that follows record i in its chain; 0 where the chain ends.
#[tactic(auto, unfolding(layouts::specs::Buffer::next))]
pub fn next_of(b: &[u32], i: usize) -> usize
    requires { Inside b.now i }
    ensures { result ≡ next b.now i }
{
    word_of(b, i, NEXT) as usize
}

// The key of record i.
#[tactic(auto, unfolding(layouts::specs::Buffer::key_at))]
pub fn key_of(b: &[u32], i: usize) -> Key
    requires { Inside b.now i }
    ensures { result ≡ key_at b.now i }
{
    Key {
        s: word_of(b, i, SPACE),
        n: word_of(b, i, NODE),
        g: word_of(b, i, EDGE),
        m: word_of(b, i, SECOND),
    }
}

// The value of record i.
#[tactic(auto, unfolding(layouts::specs::Buffer::tuple_at))]
pub fn value_of(b: &[u32], i: usize) -> u32
    requires { Inside b.now i }
    ensures { result ≡ (tuple_at b.now i).value }
{
    word_of(b, i, VALUE)
}

// The next of record i, written.
pub fn put_next(b: &mut [u32], i: usize, j: usize)
    requires { Inside b.old i × (j ≤ most_index) }
    ensures { b.new ≡ put_next b.old i j }
{
    put_word(b, i, NEXT, j as u32);
}

// The value of record i, written.
pub fn put_value(b: &mut [u32], i: usize, v: u32)
    requires { Inside b.old i }
    ensures { b.new ≡ put_value b.old i v }
{
    put_word(b, i, VALUE, v);
}

// The key and value of record i, written: all of its words but next.
#[tactic(auto, unfolding(crate::specs::Words::put_tuple))]
pub fn put_tuple(b: &mut [u32], i: usize, k: Key, v: u32)
    requires { Inside b.old i }
    ensures { b.new ≡ put_tuple b.old i k v }
{
    put_word(b, i, SPACE, k.s);
    put_word(b, i, NODE, k.n);
    put_word(b, i, EDGE, k.g);
    put_word(b, i, SECOND, k.m);
    put_word(b, i, VALUE, v);
}

// Is the first key below the second: s first, then n, g, m.
// By hand: with the derived order of keys the check of a store took 1.2 of the time, and a CUN that walks far 1.75.
pub fn key_below(a: Key, b: Key) -> bool
    ensures { result ≡ is_less (compare_keys a b) }
{
    if a.s != b.s {
        return a.s < b.s;
    }
    if a.n != b.n {
        return a.n < b.n;
    }
    if a.g != b.g {
        return a.g < b.g;
    }
    a.m < b.m
}

// Are the two keys the same. By hand, as the order: the second node is compared first, which differs most often.
pub fn key_same(a: Key, b: Key) -> bool
    ensures { result ≡ same_key a b }
{
    if a.m != b.m {
        return false;
    }
    if a.g != b.g {
        return false;
    }
    if a.n != b.n {
        return false;
    }
    a.s == b.s
}
