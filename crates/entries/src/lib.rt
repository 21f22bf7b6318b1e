#![tactic(auto)]
// The entries that an S operator lists, counted and written.
// An inner layer: what its functions require, their callers have shown; only the entry refuses.
// By hand: facts about the lent words stand in no struct; chain says why.
mod cursors;
pub mod lists;
mod walks;

ghost use Rattle.std.specs.Prelude.{[], ◌∷◌, true, ◌≡◌, length, ◌≤◌, leb};
ghost use Rattle.model.specs.Keys.{is_node};
ghost use Rattle.model.specs.Pairs.{pair, only_if};
ghost use Rattle.layouts.specs.Buffer.{tuples_of};
ghost use Rattle.chain.specs.Links.{Linked, Hint};
ghost use Rattle.entries.specs.Cursors.{list_of};
ghost use Rattle.entries.specs.Queries.{chosen, end_pair, first_at, name_at, names_start, queried};
ghost use Rattle.entries.specs.Queries.{Readable, pairs_start, start_key, start_in, outside, ends_at, written_pairs, gives_two};

use model::{Direction, Key};

// What is listed of a pair.
#[derive(Clone, Copy)]
pub enum Part {
    Both,
    Edge,
    Node,
}

// The pairs of node n in space s, with edge g and node m (0: any).
// By hand: 0 for any, and no Option, with which lists of edges to a node took 1.13 to 1.35 of the time; what asks for a name shows that it is not 0 (`NamesAsked` of listings).
#[derive(Clone, Copy)]
pub struct PairQuery {
    pub d: Direction,
    pub s: u32,
    pub n: u32,
    pub g: u32,
    pub m: u32,
    pub part: Part,
}

// The names that are asked for.
#[derive(Clone, Copy)]
pub enum NamesQuery {
    // The nodes of a space.
    Nodes(u32),
    // All spaces.
    Spaces,
    // The spaces that hold a node.
    SpacesOf(u32),
}

#[derive(Clone, Copy)]
pub enum Query {
    Pairs(PairQuery),
    Names(NamesQuery),
}

// What a walk along the chain asks of a query, for pairs or for names.
trait Source: Copy {
    ghost use Rattle.entries.specs.declared.Query.{Query};

    // The query that it is.
    ghost query: { Self → Query };

    // Is a key outside: behind the start neither it nor a later one gives an entry.
    fn is_past(self, k: Key) -> bool
        ensures { result ≡ outside (query self) k };

    // The first entry that a key gives.
    fn entry(self, k: Key) -> Option<Entry>
        ensures { list_of result ≡ first_at (query self) k };
}

// An entry of a list, by its edge and its node. Entries have the order that pairs have in the model: by the edge, then by the node.
#[derive(Clone, Copy, PartialEq, Eq, PartialOrd, Ord)]
pub struct Entry {
    pub edge: u32,
    pub node: u32,
}

// A stream of entries: the one that it stands before, and where the walk for those behind it goes on.
// Where pairs are found edge by edge, the walk has met this least edge behind the present one.
// By hand: 0 is no record in its place, as in the link words.
#[derive(Clone, Copy)]
pub struct Stream {
    pub at: usize,
    pub entry: Option<Entry>,
    pub met: Option<Entry>,
}

// One side of a cursor: where its walks begin, and its stream.
#[derive(Clone, Copy)]
pub struct Side {
    pub start: usize,
    pub stream: Stream,
}

// A cursor over the entries of a query: of adjacent pairs it has an outpointing and an inpointing side, else the second has ended.
#[derive(Clone, Copy)]
pub struct Cursor {
    pub out: Side,
    pub into: Side,
}

// How far a list has come: the cursor, the entry that it gave last (none at first and at the end), and how many it gave.
#[derive(Clone, Copy)]
pub struct Progress {
    pub cursor: Cursor,
    pub given: Option<Entry>,
    pub done: usize,
}

// Is a node one of the two ends of an edge.
#[tactic(auto, unfolding(crate::specs::Queries::ends_at))]
fn touches(n: u32, k: Key) -> bool
    ensures { result ≡ ends_at n k }
{
    k.n == n || k.m == n
}

// Is the key that of a node.
fn is_node(k: Key) -> bool
    ensures { result ≡ is_node k }
{
    k.n != 0 && k.g == 0
}

// The entry for a pair; none where it is not asked for.
#[tactic(auto, unfolding(crate::specs::Queries::chosen, crate::specs::Cursors::list_of))]
fn chosen_entry(q: PairQuery, edge: u32, node: u32) -> Option<Entry>
    ensures { list_of result ≡ (chosen q (pair edge node ∷ [])) }
{
    if !taken::passes_pair(q.g, q.m, edge, node) {
        return None;
    }
    match q.part {
        Part::Both => Some(Entry { edge, node }),
        Part::Edge => Some(Entry { edge, node: 0 }),
        Part::Node => Some(Entry { edge: 0, node }),
    }
}

// The entry that an edge between two ends gives, where the first is n; edge 0 is none.
fn end_entry(q: PairQuery, edge: u32, first: u32, second: u32) -> Option<Entry>
    ensures { list_of result ≡ chosen q (end_pair q.n edge first second) }
{
    if edge == 0 || first != q.n {
        return None;
    }
    chosen_entry(q, edge, second)
}

// The first entry that a key gives.
#[tactic(auto, unfolding(crate::specs::Queries::first_at, crate::specs::Cursors::list_of))]
fn first_pair_entry(q: PairQuery, k: Key) -> Option<Entry>
    ensures { list_of result ≡ (first_at (Query.Pairs q) k) }
{
    if k.s != q.s {
        return None;
    }
    match q.d {
        Direction::Outpointing | Direction::Adjacent => end_entry(q, k.g, k.n, k.m),
        Direction::Inpointing => end_entry(q, k.g, k.m, k.n),
    }
}

impl Source for PairQuery {
    ghost use Rattle.entries.specs.declared.Query.TheVariants.{Pairs};

    ghost query = { Pairs };

    fn is_past(self, k: Key) -> bool {
        match self.d {
            Direction::Outpointing => k.s != self.s || k.n != self.n,
            Direction::Inpointing | Direction::Adjacent => k.s != self.s,
        }
    }

    // Most keys of a walk do not have the node at an end.
    // Query and key are built anew for the call, so that a walk keeps its own in registers.
    fn entry(self, k: Key) -> Option<Entry> {
        if !touches(self.n, k) {
            return None;
        }
        first_pair_entry(PairQuery { ..self }, Key { ..k })
    }
}

// The entry of a name, where it is shown.
#[tactic(auto, unfolding(crate::specs::Cursors::list_of))]
fn named(shown: bool, node: u32) -> Option<Entry>
    ensures { list_of result ≡ only_if shown (pair 0 node) }
{
    shown.then_some(Entry { edge: 0, node })
}

impl Source for NamesQuery {
    ghost use Rattle.entries.specs.declared.Query.TheVariants.{Names};

    ghost query = { Names };

    fn is_past(self, k: Key) -> bool {
        let NamesQuery::Nodes(s) = self else {
            return false;
        };
        k.s != s
    }

    #[tactic(auto, unfolding(crate::specs::Queries::first_at, crate::specs::Queries::name_at))]
    fn entry(self, k: Key) -> Option<Entry> {
        match self {
            NamesQuery::Nodes(s) => named(is_node(k) && k.s == s, k.n),
            NamesQuery::Spaces => named(k.n == 0, k.s),
            NamesQuery::SpacesOf(n) => named(is_node(k) && k.n == n, k.s),
        }
    }
}

// No key below this one gives a pair.
#[tactic(auto, unfolding(crate::specs::Queries::pairs_start))]
fn pairs_start(q: PairQuery) -> Key
    ensures { result ≡ pairs_start q.d q.s q.n }
{
    match q.d {
        Direction::Outpointing => words::node_key(q.s, q.n),
        Direction::Inpointing | Direction::Adjacent => words::node_key(q.s, 0),
    }
}

// No key below this one gives a name.
#[tactic(auto, unfolding(crate::specs::Queries::names_start))]
fn names_start(w: NamesQuery) -> Key
    ensures { result ≡ names_start w }
{
    match w {
        NamesQuery::Nodes(s) => words::node_key(s, 0),
        NamesQuery::Spaces | NamesQuery::SpacesOf(_) => words::node_key(0, 0),
    }
}

// No key below this one gives an entry.
#[tactic(auto, unfolding(crate::specs::Queries::start_key))]
fn start_key(q: Query) -> Key
    ensures { result ≡ start_key q }
{
    match q {
        Query::Pairs(p) => pairs_start(p),
        Query::Names(w) => names_start(w),
    }
}

// The first record that can give an entry; 0 for none, as in the link words that the walk from it reads.
#[tactic(auto, unfolding(crate::specs::Queries::start_in))]
fn first_record(b: &[u32], hint: usize, q: Query) -> usize
    requires { Linked b.now × Hint b.now hint }
    ensures { result ≡ start_in b.now q }
{
    chain::seek(b, hint, start_key(q)).at
}

// Can a key give two entries.
#[tactic(auto, unfolding(crate::specs::Queries::gives_two))]
fn gives_two(q: Query) -> bool
    ensures { result ≡ gives_two q }
{
    match q {
        Query::Pairs(p) => chain::both_ways(p.d),
        Query::Names(_) => false,
    }
}

// Are there places for as many entries as there are tuples: no S operator lists more, so that they need not be counted.
#[tactic(auto, unfolding(layouts::specs::Buffer::tuples_of))]
pub fn surely_fits(b: &[u32], room: usize) -> bool
    requires { Linked b.now }
    ensures { result ≡ leb (length (tuples_of b.now)) room }
{
    words::head_word(b, 3) <= room
}

// The number of entries. By hand: a function of its own beside `write_entries`, since it is lent no list and asks for no room.
pub fn count_entries(b: &[u32], hint: usize, q: Query) -> usize
    requires { Readable b.now × Hint b.now hint }
    ensures { result ≡ length (queried q (tuples_of b.now)) }
{
    let mut nowhere: [u32; 0] = [0; 0];
    lists::list_all(b, hint, q, &mut nowhere, false)
}

// The entries written to the first places of a list that has room for them, and their number; the rest stays.
pub fn write_entries(b: &[u32], hint: usize, q: Query, list: &mut [u32]) -> usize
    requires { Readable b.now × Hint b.now hint × (length (queried q (tuples_of b.now)) ≤ length list.old) }
    ensures value { result ≡ length (queried q (tuples_of b.now)) }
    ensures list { list.new ≡ written_pairs (queried q (tuples_of b.now)) list.old }
{
    lists::list_all(b, hint, q, list, true)
}
