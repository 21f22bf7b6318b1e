#![tactic(auto)]
// Which tuples a removal takes.
ghost use Rattle.std.specs.Prelude.{◌||◌, ◌≡◌, eqb};
ghost use Rattle.model.specs.Pairs.{pair, out_pair, in_pair, pairs_at, any_pair};
ghost use Rattle.model.specs.Steps.{reaches, edges_taken, node_taken};
ghost use Rattle.taken.specs.Selections.{passes, taken_by, from_node, span_of, beyond};

use model::{Direction, Key};

// The edges of pairs of node n in space s (0: in all spaces), with edge g and node m (0: any).
// By hand: g and m as those of a query of entries, where Options cost time, since one test serves both (`passes_pair`); s is 0 for UNIVERSE as in keys, and removing from UNIVERSE removes in all spaces. So it is below.
#[derive(Clone, Copy)]
pub struct EdgesOf {
    pub d: Direction,
    pub s: u32,
    pub n: u32,
    pub g: u32,
    pub m: u32,
}

// Node n of space s (0: of all spaces), with its edges.
#[derive(Clone, Copy)]
pub struct NodeOf {
    pub s: u32,
    pub n: u32,
}

#[derive(Clone, Copy)]
pub enum Selection {
    Edges(EdgesOf),
    Node(NodeOf),
    // A space and all in it.
    Space(u32),
}

// The keys of space s (0: of all spaces) and, in it, of node n (0: of all nodes).
#[derive(Clone, Copy)]
pub struct Span {
    pub s: u32,
    pub n: u32,
}

// Does removing from space s reach the key's space.
#[tactic(auto, unfolding(model::specs::Steps::reaches))]
fn reaches_space(s: u32, k: Key) -> bool
    ensures { result ≡ reaches s k }
{
    s == 0 || k.s == s
}

// Is this the edge and node that are asked for; 0, which is no name, asks for none in particular.
#[tactic(auto, unfolding(crate::specs::Selections::passes))]
pub fn passes_pair(g: u32, m: u32, edge: u32, node: u32) -> bool
    ensures { result ≡ passes g m (pair edge node) }
{
    (g == 0 || edge == g) && (m == 0 || node == m)
}

// Is the key an edge from node n that is asked for.
#[tactic(auto, using(crate::proofs::Tests::any_out))]
fn out_taken(n: u32, g: u32, m: u32, k: Key) -> bool
    ensures { result ≡ any_pair (passes g m) (out_pair n k) }
{
    k.g != 0 && k.n == n && passes_pair(g, m, k.g, k.m)
}

// Is the key an edge to node n that is asked for.
#[tactic(auto, using(crate::proofs::Tests::any_in))]
fn in_taken(n: u32, g: u32, m: u32, k: Key) -> bool
    ensures { result ≡ any_pair (passes g m) (in_pair n k) }
{
    out_taken(n, g, m, words::reversed(k))
}

// Is the key, in whatever space, one of the edges.
#[tactic(auto, using(crate::proofs::Tests::any_append), unfolding(model::specs::Pairs::pairs_at))]
fn pair_taken(e: EdgesOf, k: Key) -> bool
    ensures { result ≡ any_pair (passes e.g e.m) (pairs_at e.d e.n k) }
{
    match e.d {
        Direction::Outpointing => out_taken(e.n, e.g, e.m, k),
        Direction::Inpointing => in_taken(e.n, e.g, e.m, k),
        Direction::Adjacent => out_taken(e.n, e.g, e.m, k) || in_taken(e.n, e.g, e.m, k),
    }
}

// Is the key one of the edges.
#[tactic(auto, unfolding(model::specs::Steps::edges_taken))]
fn edges_taken(e: EdgesOf, k: Key) -> bool
    ensures { result ≡ edges_taken e.d e.s e.n (passes e.g e.m) k }
{
    reaches_space(e.s, k) && pair_taken(e, k)
}

// Is the key that of the node, or of one of its edges.
#[tactic(auto, unfolding(model::specs::Steps::node_taken))]
fn node_taken(x: NodeOf, k: Key) -> bool
    ensures { result ≡ node_taken x.s x.n k }
{
    reaches_space(x.s, k) && (k.n == x.n || k.m == x.n)
}

// Does the selection take the tuple with this key.
#[tactic(auto, unfolding(crate::specs::Selections::taken_by, model::specs::Steps::space_taken))]
pub fn takes(sel: Selection, k: Key) -> bool
    ensures { result ≡ taken_by sel k }
{
    match sel {
        Selection::Edges(e) => edges_taken(e, k),
        Selection::Node(x) => node_taken(x, k),
        Selection::Space(s) => k.s == s,
    }
}

// The node that all edges of this direction start at; 0 for none in particular.
#[tactic(auto, unfolding(crate::specs::Selections::from_node))]
fn from_node(d: Direction, n: u32) -> u32
    ensures { result ≡ from_node d n }
{
    match d {
        Direction::Outpointing => n,
        Direction::Inpointing | Direction::Adjacent => 0,
    }
}

// The span in which all keys lie that the selection takes.
#[tactic(auto, unfolding(crate::specs::Selections::span_of))]
pub fn span_of(sel: Selection) -> Span
    ensures { result ≡ span_of sel }
{
    match sel {
        Selection::Edges(e) => Span {
            s: e.s,
            n: from_node(e.d, e.n),
        },
        Selection::Node(x) => Span { s: x.s, n: 0 },
        Selection::Space(s) => Span { s, n: 0 },
    }
}

// Does neither this key nor any above it lie in the span. By hand: no derived order, since either part may be 0 for all.
#[tactic(auto, unfolding(crate::specs::Selections::beyond))]
pub fn is_beyond(span: Span, k: Key) -> bool
    ensures { result ≡ beyond span k }
{
    if span.s == 0 {
        return false;
    }
    if k.s != span.s {
        return span.s < k.s;
    }
    if span.n == 0 {
        return false;
    }
    span.n < k.n
}
