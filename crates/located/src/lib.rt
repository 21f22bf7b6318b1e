#![tactic(auto)]
// What a call names, located once: where it is to be sought, and what of it is there.
// An inner layer: what its functions require, their callers have shown; only the entry refuses.
// By hand: facts about the lent words stand in no struct; chain says why.
ghost use Rattle.std.specs.Prelude.{◌≡◌};
ghost use Rattle.chain.specs.Links.{Linked, Hint};
ghost use Rattle.model.specs.Keys.{node_key};
ghost use Rattle.located.specs.Located.{NearIn, before_key, near_universe, also_in, farther_of, sought_in, located_space, located_node, located_nodes, located_in};

use model::{Decoded, Fields};

// Where to look in one space for what a call names: used records before the space, node n and node m, or 0.
// They are hints: searches start behind them where that is right, and answers do not depend on them. By default there are none.
#[derive(Clone, Copy, Default)]
pub struct Near {
    pub space: usize,
    pub node: usize,
    pub second: usize,
}

// Where a C is to look in UNIVERSE, once its space is known: on UNIVERSE, as in its space.
#[tactic(auto, unfolding(crate::specs::Located::also_in))]
pub fn also_in_universe(near: Near, universe: Near, s: u32) -> Near
    ensures { result ≡ also_in near universe s }
{
    if s == 0 {
        return near;
    }
    universe
}

// The farther of two places in UNIVERSE: a walk to a numbered space goes on from there.
#[tactic(auto, unfolding(crate::specs::Located::farther_of))]
fn farther(universe: Near, f: Fields) -> usize
    ensures { result ≡ farther_of universe f }
{
    if f.n <= f.m {
        return universe.second;
    }
    universe.node
}

// A key that was sought: the last used record below it, and whether it is there.
// By hand: no Option, since the record below is of use where the key is not there.
#[derive(Clone, Copy)]
struct Sought {
    before: usize,
    there: bool,
}

// What a call names in its space: where that is to be sought, and whether the space is there, and node n and node m in it.
#[derive(Clone, Copy)]
pub struct Located {
    pub near: Near,
    pub space: bool,
    pub node: bool,
    pub second: bool,
}

// Node n of space s, sought from a hint on; n = 0: the space.
#[tactic(auto, unfolding(crate::specs::Located::sought_in))]
fn seek_node(b: &[u32], hint: usize, s: u32, n: u32) -> Sought
    requires { Linked b.now × Hint b.now hint }
    ensures { result ≡ sought_in b.now (node_key s n) }
{
    let k = words::node_key(s, n);
    let place = chain::seek(b, hint, k);
    Sought {
        before: place.before,
        there: edit::held_at(b, k, place.at),
    }
}

// A space without its nodes.
// By hand: this and the two below are one definition each.
fn space_alone(before: usize, there: bool) -> Located
    ensures { result ≡ located_space before there }
{
    Located {
        near: Near {
            space: before,
            ..Near::default()
        },
        space: there,
        node: false,
        second: false,
    }
}

// A space that is there, with its node n.
fn with_node(space: usize, node: Sought) -> Located
    ensures { result ≡ located_node space node }
{
    Located {
        near: Near {
            space,
            node: node.before,
            second: 0,
        },
        space: true,
        node: node.there,
        second: false,
    }
}

// A space that is there, with its nodes n and m.
fn with_nodes(space: usize, node: Sought, second: Sought) -> Located
    ensures { result ≡ located_nodes space node second }
{
    Located {
        near: Near {
            space,
            node: node.before,
            second: second.before,
        },
        space: true,
        node: node.there,
        second: second.there,
    }
}

// Nodes n and m of a space that is there, found in one walk: the lesser first.
#[tactic(auto, using(crate::proofs::Nearby::sought_hint, crate::proofs::Nearby::nodes_located))]
fn locate_nodes(b: &[u32], space: usize, f: Fields) -> Located
    requires { Linked b.now × Hint b.now space }
    ensures { result ≡ located_nodes space (sought_in b.now (node_key f.s f.n)) (sought_in b.now (node_key f.s f.m)) }
{
    if f.n <= f.m {
        let node = seek_node(b, space, f.s, f.n);
        let second = seek_node(b, node.before, f.s, f.m);
        return with_nodes(space, node, second);
    }
    let second = seek_node(b, space, f.s, f.m);
    let node = seek_node(b, second.before, f.s, f.n);
    with_nodes(space, node, second)
}

// Where a C in a numbered space is to look in UNIVERSE; nowhere in particular for other calls.
#[tactic(auto, unfolding(crate::specs::Located::near_universe, crate::specs::Located::sought_in))]
pub fn locate_universe(b: &[u32], d: Decoded) -> Near
    requires { Linked b.now }
    ensures { result ≡ near_universe b.now d }
{
    let f = d.fields;
    if f.s == 0 || !d.row.both {
        return Near::default();
    }
    locate_nodes(b, 0, Fields { s: 0, ..f }).near
}

// What a call names in its space, if its operator reads it. No node is sought in a space that is absent.
#[tactic(auto, unfolding(crate::specs::Located::located_in))]
pub fn locate(b: &[u32], universe: Near, d: Decoded) -> Located
    requires { Linked b.now × NearIn b.now universe }
    ensures { result ≡ located_in b.now d }
{
    let f = d.fields;
    let reads = d.row.reads;
    if !reads.s {
        return space_alone(0, false);
    }
    let space = seek_node(b, farther(universe, f), f.s, 0);
    if !space.there {
        return space_alone(space.before, false);
    }
    if reads.m {
        return locate_nodes(b, space.before, f);
    }
    if !reads.n {
        return space_alone(space.before, true);
    }
    let node = seek_node(b, space.before, f.s, f.n);
    with_node(space.before, node)
}
