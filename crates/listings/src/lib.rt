#![tactic(auto)]
// The query of each S operator, and its list.
// An inner layer: what its functions require, their callers have shown; only the entry refuses.
// By hand: facts about the lent words stand in no struct; chain says why.
ghost use Rattle.std.specs.Prelude.{◌≡◌, length, ◌≤◌};
ghost use Rattle.layouts.specs.Buffer.{tuples_of};
ghost use Rattle.model.specs.Steps.{listed};
ghost use Rattle.entries.specs.Queries.{Readable, written_pairs};
ghost use Rattle.entries.specs.declared.Query.TheVariants.{Pairs};
ghost use Rattle.listings.specs.Lists.{pairs_hint, list_hint, pair_query, query_of, NamesAsked};
ghost use Rattle.located.specs.Located.{NearIn};

pub use entries::surely_fits;
use entries::{NamesQuery, PairQuery, Part, Query};
use located::Near;
use model::{Direction, Fields, Listing};

// The query for the pairs of the call's node in its space, with edge g and node m (0: any).
fn pair_query(d: Direction, f: Fields, g: u32, m: u32, part: Part) -> Query
    ensures { result ≡ Pairs (pair_query d f.s f.n g m part) }
{
    Query::Pairs(PairQuery {
        d,
        s: f.s,
        n: f.n,
        g,
        m,
        part,
    })
}

// The query of an S operator.
#[tactic(auto, unfolding(crate::specs::Lists::query_of))]
pub fn query_of(l: Listing, f: Fields) -> Query
    ensures { result ≡ query_of l f }
{
    match l {
        Listing::P(d) => pair_query(d, f, 0, 0, Part::Both),
        Listing::G(d) => pair_query(d, f, 0, 0, Part::Edge),
        Listing::GN(d) => pair_query(d, f, 0, f.m, Part::Edge),
        Listing::N(d) => pair_query(d, f, 0, 0, Part::Node),
        Listing::NG(d) => pair_query(d, f, f.g, 0, Part::Node),
        Listing::UN => Query::Names(NamesQuery::Nodes(f.s)),
        Listing::US => Query::Names(NamesQuery::Spaces),
        Listing::USn => Query::Names(NamesQuery::SpacesOf(f.n)),
    }
}

// Where the walk for pairs starts: edges from n stand behind n, edges to n anywhere in the space.
#[tactic(auto, unfolding(crate::specs::Lists::pairs_hint))]
fn pairs_hint(d: Direction, near: Near) -> usize
    ensures { result ≡ pairs_hint d near }
{
    match d {
        Direction::Outpointing => near.node,
        Direction::Inpointing | Direction::Adjacent => near.space,
    }
}

// Where the walk of an S operator starts.
#[tactic(auto, unfolding(crate::specs::Lists::list_hint))]
fn list_hint(l: Listing, near: Near) -> usize
    ensures { result ≡ list_hint l near }
{
    match l {
        Listing::P(d) | Listing::G(d) | Listing::GN(d) | Listing::N(d) | Listing::NG(d) => {
            pairs_hint(d, near)
        }
        Listing::UN => near.space,
        Listing::US | Listing::USn => 0,
    }
}

// The number of entries that an S operator lists. By hand: a function of its own beside `write_listed`, since it is lent no list and asks for no room.
pub fn count_listed(b: &[u32], near: Near, l: Listing, f: Fields) -> usize
    requires { Readable b.now × NearIn b.now near × NamesAsked l f }
    ensures { result ≡ length (listed l f (tuples_of b.now)) }
{
    entries::count_entries(b, list_hint(l, near), query_of(l, f))
}

// The entries written to the first places of a list that has room for them, and their number; the rest stays.
pub fn write_listed(b: &[u32], near: Near, l: Listing, f: Fields, list: &mut [u32]) -> usize
    requires { Readable b.now × NearIn b.now near × NamesAsked l f × (length (listed l f (tuples_of b.now)) ≤ length list.old) }
    ensures value { result ≡ length (listed l f (tuples_of b.now)) }
    ensures list { list.new ≡ written_pairs (listed l f (tuples_of b.now)) list.old }
{
    entries::write_entries(b, list_hint(l, near), query_of(l, f), list)
}
