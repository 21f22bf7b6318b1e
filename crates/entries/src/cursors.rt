// Cursors: the entries of any query one after the other.
// An inner layer: what its functions require, their callers have shown; only the entry refuses.
ghost use Rattle.std.specs.Prelude.{true, false, ◌≡◌};
ghost use Rattle.std.proofs.Math.Option.{none};
ghost use Rattle.chain.specs.Links.{both_ways, Linked, Hint};
ghost use Rattle.entries.specs.declared.Query.TheVariants.{Pairs};
ghost use Rattle.entries.specs.Queries.{start_in};
ghost use Rattle.entries.specs.Cursors.{entry_of, turned, one_way, out_query, in_query, SideBehind, CursorBehind, Stands, StandsBefore, cursor_entry};

use crate::{Cursor, Entry, PairQuery, Query, Side, Stream};
use model::Direction;

// The entry that a cursor stands before; none at the end.
pub fn entry_of(c: Cursor) -> Option<Entry>
    ensures { entry_of result ≡ cursor_entry c }
{
    crate::walks::lesser_entry(c.out.stream.entry, c.into.stream.entry)
}

// The same query in another direction.
fn turned_to(q: PairQuery, d: Direction) -> PairQuery
    ensures { result ≡ turned q d }
{
    PairQuery { d, ..q }
}

// The streams of a query.
#[tactic(auto, unfolding(crate::specs::Cursors::out_query))]
fn out_query(q: Query) -> Query
    ensures { result ≡ out_query q }
{
    let Query::Pairs(p) = q else {
        return q;
    };
    if chain::both_ways(p.d) {
        return Query::Pairs(turned_to(p, Direction::Outpointing));
    }
    q
}

#[tactic(auto, unfolding(crate::specs::Cursors::in_query))]
fn in_query(q: Query) -> Query
    ensures { result ≡ in_query q }
{
    let Query::Pairs(p) = q else {
        return q;
    };
    Query::Pairs(turned_to(p, Direction::Inpointing))
}

// The side of a query at its start.
#[tactic(auto, using(crate::proofs::CursorLaws::start_behind), unfolding(crate::specs::Cursors::entry_of))]
fn start_side(b: &[u32], hint: usize, q: Query) -> Side
    requires { Linked b.now × Hint b.now hint }
    ensures { SideBehind b.now q none result × (entry_of result.stream.entry ≡ none) }
{
    let start = crate::first_record(b, hint, q);
    let stream = Stream {
        at: start,
        entry: None,
        met: None,
    };
    Side { start, stream }
}

// A cursor at its start. The hint is a used record, or 0: the search for the start may begin behind it.
pub fn start(b: &[u32], hint: usize, q: Query) -> Cursor
    requires { Linked b.now × Hint b.now hint }
    ensures { CursorBehind b.now q none result }
{
    let out = start_side(b, hint, out_query(q));
    if crate::gives_two(q) {
        let into = start_side(b, hint, in_query(q));
        return Cursor { out, into };
    }
    let stream = crate::walks::ended();
    let into = Side { start: 0, stream };
    Cursor { out, into }
}

// A side of adjacent pairs, before the least entry behind the one that was given: it goes on where that was its own.
#[tactic(auto, unfolding(crate::specs::Cursors::entry_of, crate::specs::Cursors::one_way))]
fn move_side(b: &[u32], q: PairQuery, s: Side, given: Option<Entry>) -> Side
    requires { SideBehind b.now (Pairs q) (entry_of given) s × (one_way (Pairs q) ≡ true) }
    ensures { Stands b.now (Pairs q) (entry_of given) result.stream × (result.start ≡ start_in b.now (Pairs q)) }
{
    let own = s.stream.entry;
    if own != given {
        return s;
    }
    let stream = crate::walks::pairs_behind(b, q, s.start, s.stream);
    Side { stream, ..s }
}

// The cursor of adjacent pairs, before the least one behind the one that it gave.
fn move_both(b: &[u32], p: PairQuery, c: Cursor, given: Option<Entry>) -> Cursor
    requires { CursorBehind b.now (Pairs p) (entry_of given) c × (both_ways p.d ≡ true) }
    ensures { StandsBefore b.now (Pairs p) (entry_of given) result }
{
    let out = move_side(b, turned_to(p, Direction::Outpointing), c.out, given);
    let into = move_side(b, turned_to(p, Direction::Inpointing), c.into, given);
    Cursor { out, into }
}

// The cursor of pairs, before the least one behind the one that it gave.
#[tactic(auto, unfolding(crate::specs::Cursors::entry_of))]
fn advance_pairs(b: &[u32], p: PairQuery, c: Cursor, given: Option<Entry>) -> Cursor
    requires { CursorBehind b.now (Pairs p) (entry_of given) c }
    ensures { StandsBefore b.now (Pairs p) (entry_of given) result }
{
    if chain::both_ways(p.d) {
        return move_both(b, p, c, given);
    }
    let stream = crate::walks::pairs_behind(b, p, c.out.start, c.out.stream);
    let out = Side { stream, ..c.out };
    Cursor { out, ..c }
}

// The cursor before the least entry behind the one that it gave.
#[tactic(auto, unfolding(crate::specs::Cursors::entry_of, crate::specs::Cursors::in_order))]
pub fn advance(b: &[u32], q: Query, c: Cursor, given: Option<Entry>) -> Cursor
    requires { CursorBehind b.now q (entry_of given) c }
    ensures { StandsBefore b.now q (entry_of given) result }
{
    match q {
        Query::Pairs(p) => advance_pairs(b, p, c, given),
        Query::Names(w) => {
            let stream = crate::walks::next_from(b, w, c.out.stream.at, given);
            let out = Side { stream, ..c.out };
            Cursor { out, ..c }
        }
    }
}
