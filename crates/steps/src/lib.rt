#![tactic(auto)]
// What V, X, B and C do to a store.
// An inner layer: what its functions require, their callers have shown; only the entry refuses.
// By hand: facts about the lent words stand in no struct; chain says why.
ghost use Rattle.std.specs.Prelude.{◌≡◌, length, [], ◌∷◌};
ghost use Rattle.model.specs.Keys.{edge_key};
ghost use Rattle.model.specs.Tuples.{any_present, add_all, missing};
ghost use Rattle.layouts.specs.Buffer.{tuples_of};
ghost use Rattle.model.specs.Steps.{object_keys, created, first_value};
ghost use Rattle.chain.specs.Links.{Linked, Hint, KeepsHints, Edited};
ghost use Rattle.located.specs.Located.{NearIn};
ghost use Rattle.steps.specs.Objects.{pair_hint, main_hint, pair_key, main_key, is_adjacent, is_space, Room, Bound};

use located::Near;
use model::{Direction, Fields, Key, Object};

// The key in space s of the edge from n to m.
fn edge_key(s: u32, f: Fields) -> Key
    ensures { result ≡ edge_key s f.n f.g f.m }
{
    Key {
        s,
        n: f.n,
        g: f.g,
        m: f.m,
    }
}

// The key in space s of the edge from m to n.
fn reversed_key(s: u32, f: Fields) -> Key
    ensures { result ≡ edge_key s f.m f.g f.n }
{
    words::reversed(edge_key(s, f))
}

// The key that a pair has in space s; for an adjacent pair, that of the edge from n.
#[tactic(auto, unfolding(crate::specs::Objects::pair_key))]
fn pair_key(d: Direction, s: u32, f: Fields) -> Key
    ensures { result ≡ pair_key d s f }
{
    match d {
        Direction::Outpointing | Direction::Adjacent => edge_key(s, f),
        Direction::Inpointing => reversed_key(s, f),
    }
}

// The first key that an object has in space s.
#[tactic(auto, unfolding(crate::specs::Objects::main_key))]
fn main_key(o: Object, s: u32, f: Fields) -> Key
    ensures { result ≡ main_key o s f }
{
    match o {
        Object::P(d) => pair_key(d, s, f),
        Object::UN => words::node_key(s, f.n),
        Object::US => words::node_key(s, 0),
    }
}

// The hint for the first key of a pair.
#[tactic(auto, unfolding(crate::specs::Objects::pair_hint))]
fn pair_hint(d: Direction, near: Near) -> usize
    ensures { result ≡ pair_hint d near }
{
    match d {
        Direction::Outpointing | Direction::Adjacent => near.node,
        Direction::Inpointing => near.second,
    }
}

// The hint for the first key of an object.
#[tactic(auto, unfolding(crate::specs::Objects::main_hint))]
fn main_hint(o: Object, near: Near) -> usize
    ensures { result ≡ main_hint o near }
{
    match o {
        Object::P(d) => pair_hint(d, near),
        Object::UN => near.node,
        Object::US => near.space,
    }
}

// Has an object a second key.
#[tactic(auto, unfolding(crate::specs::Objects::is_adjacent))]
fn is_adjacent(o: Object) -> bool
    ensures { result ≡ is_adjacent o }
{
    match o {
        Object::P(d) => chain::both_ways(d),
        Object::UN | Object::US => false,
    }
}

// V: the value of what the call names.
pub fn value_of(b: &[u32], near: Near, o: Object, f: Fields) -> u32
    requires { Linked b.now × NearIn b.now near }
    ensures { result ≡ first_value (object_keys o f.s f) (tuples_of b.now) }
{
    chain::value_at(b, main_hint(o, near), main_key(o, f.s, f))
}

// X: is there what the call names.
// By hand: the first key and then the reversed one, here and below; what is done with them differs, and a closure for it would be longer.
pub fn exists(b: &[u32], near: Near, o: Object, f: Fields) -> bool
    requires { Linked b.now × NearIn b.now near }
    ensures { result ≡ any_present (object_keys o f.s f) (tuples_of b.now) }
{
    chain::has(b, main_hint(o, near), main_key(o, f.s, f))
        || is_adjacent(o) && chain::has(b, near.second, reversed_key(f.s, f))
}

// B: sets the value of what the call names; of two edges, whichever are present. No word is written but their value words.
#[tactic(auto, unfolding(model::specs::Steps::object_keys))]
pub fn bind(b: &mut [u32], near: Near, o: Object, f: Fields)
    requires { Linked b.old × NearIn b.old near }
    ensures { Bound b.old (object_keys o f.s f) f.v b.new }
{
    edit::assign_value(b, main_hint(o, near), main_key(o, f.s, f), f.v);
    if is_adjacent(o) {
        edit::assign_value(b, near.second, reversed_key(f.s, f), f.v);
    }
}

// How many tuples a key would add.
#[tactic(auto, unfolding(model::specs::Tuples::missing, layouts::specs::Buffer::tuples_of))]
fn count_absent(b: &[u32], hint: usize, k: Key) -> usize
    requires { Linked b.now × Hint b.now hint }
    ensures { result ≡ length (missing (k ∷ []) (tuples_of b.now)) }
{
    usize::from(!chain::has(b, hint, k))
}

// How many tuples an object would add in space s; a loop has one edge.
#[tactic(auto, unfolding(model::specs::Tuples::missing, model::specs::Steps::object_keys, layouts::specs::Buffer::tuples_of))]
fn missing_in(b: &[u32], near: Near, o: Object, s: u32, f: Fields) -> usize
    requires { Linked b.now × NearIn b.now near }
    ensures { result ≡ length (missing (object_keys o s f) (tuples_of b.now)) }
{
    let first = count_absent(b, main_hint(o, near), main_key(o, s, f));
    if !is_adjacent(o) {
        return first;
    }
    if f.n == f.m {
        return first;
    }
    first + count_absent(b, near.second, reversed_key(s, f))
}

// Is a space created, which has no second tuple in 0.
#[tactic(auto, unfolding(crate::specs::Objects::is_space))]
fn is_space(o: Object) -> bool
    ensures { result ≡ is_space o }
{
    matches!(o, Object::US)
}

// C: how many tuples it would add.
pub fn count_created(b: &[u32], near: Near, universe: Near, o: Object, f: Fields) -> usize
    requires { Linked b.now × NearIn b.now near × NearIn b.now universe }
    ensures { result ≡ length (missing (created o f) (tuples_of b.now)) }
{
    let here = missing_in(b, near, o, f.s, f);
    if f.s == 0 {
        return here;
    }
    if is_space(o) {
        return here;
    }
    here + missing_in(b, universe, o, 0, f)
}

// Adds an object's tuples in space s, NIL where they are missing.
fn add_in(b: &mut [u32], near: Near, o: Object, s: u32, f: Fields)
    requires { Linked b.old × NearIn b.old near × Room b.old (object_keys o s f) }
    ensures edited { Edited b.old b.new (add_all (object_keys o s f) (tuples_of b.old)) }
    ensures hints { KeepsHints b.old b.new }
{
    edit::add_missing(b, main_hint(o, near), main_key(o, s, f));
    if is_adjacent(o) {
        edit::add_missing(b, near.second, reversed_key(s, f));
    }
}

// C: adds what the call names in s and in 0, where there is room for all of it.
pub fn create(b: &mut [u32], near: Near, universe: Near, o: Object, f: Fields)
    requires { Linked b.old × NearIn b.old near × NearIn b.old universe × Room b.old (created o f) }
    ensures { Edited b.old b.new (add_all (created o f) (tuples_of b.old)) }
{
    add_in(b, near, o, f.s, f);
    if !is_space(o) {
        add_in(b, universe, o, 0, f);
    }
}
