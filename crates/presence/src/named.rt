// Is there what each tuple names, but the ends of edges.
// Each requires that the used chain ends and its keys ascend from (0,0,0,0).
ghost use Rattle.std.specs.Prelude.{◌≡◌};
ghost use Rattle.layouts.specs.Buffer.{tuples_of};
ghost use Rattle.model.specs.Rules.{node_supported, every_key};
ghost use Rattle.presence.specs.Presence.{Sorted, edge_in_universe, named_present};

use super::seek::holds_from;
use model::Key;
use words::node_key;

// Has a node tuple its space and its tuple in 0; other keys need neither.
#[tactic(auto, using(crate::proofs::Support::head_says), unfolding(model::specs::Rules::node_supported))]
fn node_supported(b: &[u32], k: Key) -> bool
    requires { Sorted b.now }
    ensures { result ≡ node_supported (tuples_of b.now) k }
{
    let head = words::head_word(b, 1);
    k.n == 0
        || k.g != 0
        || holds_from(b, head, node_key(k.s, 0)) && holds_from(b, head, node_key(0, k.n))
}

// Has an edge tuple its tuple in 0; other keys need none.
#[tactic(auto, using(crate::proofs::Support::head_says), unfolding(crate::specs::Presence::edge_in_universe))]
fn edge_in_universe(b: &[u32], k: Key) -> bool
    requires { Sorted b.now }
    ensures { result ≡ edge_in_universe (tuples_of b.now) k }
{
    let edge = Key { s: 0, ..k };
    k.g == 0 || holds_from(b, words::head_word(b, 1), edge)
}

// Is all there that a tuple names but the ends of an edge.
#[tactic(auto, unfolding(crate::specs::Presence::named_present))]
fn named_present(b: &[u32], k: Key) -> bool
    requires { Sorted b.now }
    ensures { result ≡ named_present (tuples_of b.now) k }
{
    node_supported(b, k) && edge_in_universe(b, k)
}

// Is it there for every tuple.
pub fn all_named(b: &[u32]) -> bool
    requires { Sorted b.now }
    ensures { result ≡ every_key (named_present (tuples_of b.now)) (tuples_of b.now) }
{
    let mut at = words::head_word(b, 1);
    while at != 0 {
        if !named_present(b, words::key_of(b, at)) {
            return false;
        }
        at = chain::next_of(b, at);
    }
    true
}
