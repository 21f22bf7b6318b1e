#![tactic(auto)]
// What the D operators remove from a store.
// An inner layer: what its functions require, their callers have shown; only the entry refuses.
// By hand: facts about the lent words stand in no struct; chain says why.
ghost use Rattle.std.specs.Prelude.{◌≢◌, ◌≡◌};
ghost use Rattle.model.specs.Tuples.{remove};
ghost use Rattle.layouts.specs.Buffer.{tuples_of};
ghost use Rattle.model.specs.Steps.{edges_taken, node_taken, space_taken, destroyed, listed, remove_nodes};
ghost use Rattle.chain.specs.Links.{Linked, Hint, Edited};
ghost use Rattle.taken.specs.Selections.{passes};
ghost use Rattle.located.specs.Located.{NearIn};
ghost use Rattle.entries.specs.Queries.{Readable};
ghost use Rattle.listings.specs.Lists.{NamesAsked};
ghost use Rattle.removals.specs.Collected.{edges_of, remove_each, NamesRead, Removable, Named, NodesListed};

use located::Near;
use model::{Direction, Fields, Listing, Removal};
use taken::{EdgesOf, NodeOf, Selection};

// Removes the edges of the pairs of node n in space s with edge g and node m (0: any).
fn remove_edges(b: &mut [u32], hint: usize, e: EdgesOf)
    requires { Linked b.old × Hint b.old hint }
    ensures { Edited b.old b.new (remove (edges_taken e.d e.s e.n (passes e.g e.m)) (tuples_of b.old)) }
{
    edit::sweep(b, hint, Selection::Edges(e));
}

// Removes node n from space s (0: from all spaces), with its edges.
#[tactic(auto, unfolding(model::specs::Steps::node_taken, taken::specs::Selections::taken_by))]
pub fn remove_node(b: &mut [u32], hint: usize, x: NodeOf)
    requires { Linked b.old × Hint b.old hint × (x.n ≢ 0) }
    ensures { Edited b.old b.new (remove (node_taken x.s x.n) (tuples_of b.old)) }
{
    edit::sweep(b, hint, Selection::Node(x));
}

// Removes a numbered space and all in it.
#[tactic(auto, unfolding(model::specs::Steps::space_taken, taken::specs::Selections::taken_by))]
fn remove_space(b: &mut [u32], hint: usize, s: u32)
    requires { Linked b.old × Hint b.old hint × (s ≢ 0) }
    ensures { Edited b.old b.new (remove (space_taken s) (tuples_of b.old)) }
{
    edit::sweep(b, hint, Selection::Space(s));
}

// The edges of the pairs of node n in the call's space with edge g and node m (0: any).
fn edges_of(d: Direction, f: Fields, g: u32, m: u32) -> EdgesOf
    ensures { result ≡ edges_of d f g m }
{
    EdgesOf {
        d,
        s: f.s,
        n: f.n,
        g,
        m,
    }
}

// D 24–29: "the nodes of such pairs are collected first, then each is removed as by DUN".

// Places for the nodes that are collected: as many as any query lists.
const MOST_COLLECTED: usize = entries::lists::MOST_LISTED;

// Removes each of some nodes from space s (0: from all spaces), with its edges.
#[tactic(auto, unfolding(crate::specs::Collected::remove_each))]
fn remove_each(b: &mut [u32], s: u32, nodes: &[u32])
    requires { Linked b.old × Named nodes.now }
    ensures { Edited b.old b.new (remove_each s nodes.now (tuples_of b.old)) }
{
    for &n in nodes {
        remove_node(b, 0, NodeOf { s, n });
    }
}

// Removes from the call's space the nodes that an S operator lists; they are at most two for each tuple.
fn remove_listed(b: &mut [u32], near: Near, l: Listing, f: Fields)
    requires { Readable b.old × NearIn b.old near × NamesAsked l f × NodesListed (listed l f (tuples_of b.old)) }
    ensures { Edited b.old b.new (remove_nodes f.s (listed l f (tuples_of b.old)) (tuples_of b.old)) }
{
    let mut nodes: [u32; MOST_COLLECTED] = [0; MOST_COLLECTED];
    let count = listings::write_listed(b, near, l, f, &mut nodes);
    remove_each(b, f.s, &nodes[..count]);
}

// By hand: a match on the removal; removals are a closed set, and closures for them would be no shorter.
// D: removes what the operator names. With g or m as 0 the edges are those with any edge or any node. Only D 24–29 ask for a store.
#[tactic(auto, unfolding(model::specs::Steps::destroyed, model::specs::Steps::listed))]
pub fn destroy(b: &mut [u32], near: Near, r: Removal, f: Fields)
    requires { Removable r b.old × NearIn b.old near × NamesRead r f }
    ensures { Edited b.old b.new (destroyed r f (tuples_of b.old)) }
{
    match r {
        Removal::P(d) => remove_edges(b, near.space, edges_of(d, f, f.g, f.m)),
        Removal::G(d) => remove_edges(b, near.space, edges_of(d, f, 0, 0)),
        Removal::GG(d) => remove_edges(b, near.space, edges_of(d, f, f.g, 0)),
        Removal::GN(d) => remove_edges(b, near.space, edges_of(d, f, 0, f.m)),
        Removal::N(d) => remove_listed(b, near, Listing::N(d), f),
        Removal::NG(d) => remove_listed(b, near, Listing::NG(d), f),
        Removal::UN => remove_node(b, near.space, NodeOf { s: f.s, n: f.n }),
        Removal::US => remove_space(b, near.space, f.s),
    }
}
