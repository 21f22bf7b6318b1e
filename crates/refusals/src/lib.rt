#![tactic(auto)]
// Which condition stops a call: 2, 3, 12 and 4 by the call alone, 5 to 10 by what the store holds.
// An inner layer: what its functions require, their callers have shown; only the entry refuses.
// By hand: facts about the lent words stand in no struct; chain says why.
ghost use Rattle.std.specs.Prelude.{true, false, not, ◌≡◌, ◌-◌, ltb, length};
ghost use Rattle.model.specs.Tuples.{present, any_present, missing};
ghost use Rattle.model.specs.Steps.{listed, would_add};
ghost use Rattle.model.specs.Refusals.{first, no_operator, zero_name, space_absent, node_absent, second_absent, worked_on, edge_absent, list_short, full, of_call};
ghost use Rattle.layouts.specs.Buffer.{capacity_of, tuples_of, is_store};
ghost use Rattle.chain.specs.Links.{Linked, Hint};
ghost use Rattle.listings.specs.Lists.{NamesAsked};
ghost use Rattle.located.specs.Located.{NearIn, Told};
ghost use Rattle.refusals.specs.Checks.{checked, of_store, of_step, Unstopped};

use located::{Located, Near};
use model::{Call, Decoded, Fields, Key, Listing, Operator, Refusal};
use operators::DecodedCall;

// A call that conditions 2 and 3 do not stop: its number is an operator's, and no name that is read is 0.
#[derive(Clone, Copy)]
pub struct NamedCall {
    pub read: DecodedCall,
    pub ghost known: { no_operator read.call ≡ false },
    pub ghost named: { zero_name read.call ≡ false },
}

impl NamedCall {
    ghost use Rattle.refusals.specs.Admissions.{call_admitted};

    // Conditions 2, 3, 12 and 4, whatever the store holds: the first that stops the call is the error.
    pub fn admit(call: Call) -> Result<NamedCall, Refusal>
        ensures { call_admitted result ≡ checked call (first (of_call call)) }
    {
        let Some(read) = DecodedCall::of(call) else {
            return Err(Refusal::NoOperator);
        };
        if read.zero_name() {
            return Err(Refusal::ZeroName);
        }
        if read.lacks_space() {
            return Err(Refusal::NoSelection);
        }
        if read.destroys_universe() {
            return Err(Refusal::UniverseDestroyed);
        }
        Ok(NamedCall { read })
    }
}

// Is there no tuple with this key.
fn key_absent(b: &[u32], hint: usize, k: Key) -> bool
    requires { Linked b.now × Hint b.now hint }
    ensures { result ≡ not (present k (tuples_of b.now)) }
{
    !chain::has(b, hint, k)
}

// Condition 5: s is absent.
#[tactic(auto, unfolding(model::specs::Refusals::space_absent))]
fn space_absent(b: &[u32], d: Decoded, l: Located) -> bool
    requires { Told b.now d l × Unstopped d }
    ensures { result ≡ space_absent d (tuples_of b.now) }
{
    d.row.asks.space && !l.space
}

// Condition 6: n is absent from s, or, for 57, from 0. Asked where condition 5 does not apply.
#[tactic(auto, unfolding(model::specs::Refusals::node_absent))]
fn node_absent(b: &[u32], d: Decoded, l: Located) -> bool
    requires { Linked b.now × Told b.now d l × Unstopped d × (space_absent d (tuples_of b.now) ≡ false) }
    ensures { result ≡ node_absent d (tuples_of b.now) }
{
    if d.row.asks.universe {
        return key_absent(b, 0, words::node_key(0, d.fields.n));
    }
    if !d.row.asks.node {
        return false;
    }
    !l.node
}

// Condition 7: m, where it is read, is absent from s. Asked where condition 5 does not apply.
#[tactic(auto, using(crate::proofs::Absent::second_read), unfolding(model::specs::Refusals::second_absent))]
fn second_absent(b: &[u32], d: Decoded, l: Located) -> bool
    requires { Told b.now d l × Unstopped d × (space_absent d (tuples_of b.now) ≡ false) }
    ensures { result ≡ second_absent d (tuples_of b.now) }
{
    d.row.reads.m && !l.second
}

// Is nothing present of what C, B, V and X work on.
#[tactic(auto, unfolding(model::specs::Tuples::any_present, model::specs::Refusals::worked_on))]
fn object_absent(b: &[u32], near: Near, op: Operator, f: Fields) -> bool
    requires { Linked b.now × NearIn b.now near }
    ensures { result ≡ not (any_present (worked_on op f) (tuples_of b.now)) }
{
    match op {
        Operator::Create(o) | Operator::Bind(o) | Operator::Value(o) | Operator::Exists(o) => {
            !steps::exists(b, near, o, f)
        }
        Operator::Destroy(_) | Operator::List(_) => true,
    }
}

// Condition 8: no such edge.
#[tactic(auto, unfolding(model::specs::Refusals::edge_absent))]
fn edge_absent(b: &[u32], d: Decoded, near: Near) -> bool
    requires { Linked b.now × NearIn b.now near }
    ensures { result ≡ edge_absent d (tuples_of b.now) }
{
    d.row.asks.edge && object_absent(b, near, d.operator, d.fields)
}

// Condition 9 for an S operator: the entries are counted only where the tuples could give more than the list holds.
fn list_short(b: &[u32], near: Near, l: Listing, f: Fields, room: usize) -> bool
    requires { (is_store b.now ≡ true) × NearIn b.now near × NamesAsked l f }
    ensures { result ≡ ltb room (length (listed l f (tuples_of b.now))) }
{
    if listings::surely_fits(b, room) {
        return false;
    }
    room < listings::count_listed(b, near, l, f)
}

// Condition 9: the answer list is shorter than what the call would list; that is nothing but for S.
#[tactic(auto, unfolding(model::specs::Refusals::list_short, model::specs::Steps::would_list))]
fn is_short(b: &[u32], near: Near, d: Decoded, room: usize) -> bool
    requires { (is_store b.now ≡ true) × NearIn b.now near × Unstopped d }
    ensures { result ≡ list_short d (tuples_of b.now) room }
{
    match d.operator {
        Operator::List(l) => list_short(b, near, l, d.fields, room),
        _ => false,
    }
}

// How many tuples the call would add; none but for C.
#[tactic(auto, unfolding(model::specs::Tuples::missing, model::specs::Steps::would_add))]
fn count_added(b: &[u32], near: Near, universe: Near, d: Decoded) -> usize
    requires { Linked b.now × NearIn b.now near × NearIn b.now universe }
    ensures { result ≡ length (missing (would_add d.operator d.fields) (tuples_of b.now)) }
{
    match d.operator {
        Operator::Create(o) => steps::count_created(b, near, universe, o, d.fields),
        _ => 0,
    }
}

// How many records are free: word 0 is C.
fn free_records(b: &[u32]) -> usize
    requires { Linked b.now }
    ensures { result ≡ capacity_of b.now - length (tuples_of b.now) }
{
    words::head_word(b, 0) - edit::tuple_count(b) as usize
}

// No call adds more tuples: those of an adjacent pair, in its space and in UNIVERSE.
const MOST_ADDED: usize = 4;

// Condition 10: fewer records are free than the call would add tuples. They are counted only where more could be added than are free.
fn is_full(b: &[u32], near: Near, universe: Near, d: Decoded) -> bool
    requires { Linked b.now × NearIn b.now near × NearIn b.now universe }
    ensures { result ≡ full (capacity_of b.now) d (tuples_of b.now) }
{
    let free = free_records(b);
    if free >= MOST_ADDED {
        return false;
    }
    free < count_added(b, near, universe, d)
}

// Conditions 8 to 10 on a store: the first that stops the call is the error.
#[tactic(auto, unfolding(layouts::specs::Buffer::capacity_of, crate::specs::Checks::checked, model::specs::Refusals::first, layouts::specs::Buffer::is_store))]
fn check_step(b: &[u32], d: Decoded, near: Near, universe: Near, room: usize) -> Result<(), Refusal>
    requires { (is_store b.now ≡ true) × NearIn b.now near × NearIn b.now universe × Unstopped d }
    ensures { result ≡ checked tt (first (of_step (capacity_of b.now) (tuples_of b.now) d room)) }
{
    if edge_absent(b, d, near) {
        return Err(Refusal::EdgeAbsent);
    }
    if is_short(b, near, d, room) {
        return Err(Refusal::ListTooShort);
    }
    if is_full(b, near, universe, d) {
        return Err(Refusal::Full);
    }
    Ok(())
}

// Conditions 5 to 10 on a store: the first that stops the call is the error. `room` is the length of the call's answer list,
// `l` tells what the call names in its space, `universe` has hints in UNIVERSE.
#[tactic(auto, unfolding(layouts::specs::Buffer::capacity_of, crate::specs::Checks::checked, model::specs::Refusals::first, layouts::specs::Buffer::is_store))]
pub fn check_store(
    b: &[u32],
    d: Decoded,
    l: Located,
    universe: Near,
    room: usize,
) -> Result<(), Refusal>
    requires { (is_store b.now ≡ true) × Told b.now d l × NearIn b.now universe × Unstopped d }
    ensures { result ≡ checked tt (first (of_store (capacity_of b.now) (tuples_of b.now) d room)) }
{
    if space_absent(b, d, l) {
        return Err(Refusal::SpaceAbsent);
    }
    if node_absent(b, d, l) {
        return Err(Refusal::NodeAbsent);
    }
    if second_absent(b, d, l) {
        return Err(Refusal::SecondAbsent);
    }
    check_step(b, d, l.near, universe, room)
}
