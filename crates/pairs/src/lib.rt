#![tactic(auto)]
// One call whose answer list is a lent list of pairs: the pairs are written straight to their places, one after the other.
ghost use Rattle.std.specs.Prelude.{[], ◌≡◌, ◌≤◌, ◌-◌, leb, length, Some};
ghost use Rattle.model.specs.OneCall.{OneCall};
ghost use Rattle.layouts.specs.Buffer.{tuples_of};
ghost use Rattle.layouts.specs.Stored.{stored};
ghost use Rattle.entries.specs.Queries.{Readable, queried};
ghost use Rattle.entries.specs.Lists.{query_list, Reached};
ghost use Rattle.pairs.specs.InPairs.{CallInPairs};
ghost use Rattle.pairs.specs.Decisions.{operator_query, query_for, Decided};
ghost use Rattle.pairs.specs.WrittenPairs.{PairWritten, PairsWritten};

use entries::{Entry, Progress, Query};
use model::{Answer, Call, Fields, Operator, Pair, Refusal};

// The number of the first operator that lists pairs, and of the first one behind those of pairs.
const FIRST_LISTING: u32 = 30;

const FIRST_OTHER: u32 = 45;

// What a call comes to: its answer, or a list that is still to be written.
// By hand: neither of the two is a failure of the other, so no Result.
#[derive(Clone, Copy)]
pub enum Decision {
    Answered(Result<Answer, Refusal>),
    Listed(Query),
}

// A call that is lent no place for a list: where it would list something, it is refused by 9.
fn ask(store: &mut [u32], call: Call) -> Result<Answer, Refusal>
    ensures { OneCall stored store.old [] call result store.new [] }
{
    let mut nowhere: [u32; 0] = [0; 0];
    calls::execute(store, call, &mut nowhere)
}

// The query of an S operator; none for others.
#[tactic(auto, unfolding(crate::specs::Decisions::operator_query))]
fn query_in(op: Operator, f: Fields) -> Option<Query>
    ensures { result ≡ operator_query op f }
{
    match op {
        Operator::List(l) => Some(listings::query_of(l, f)),
        _ => None,
    }
}

// The query of a call that lists; none for others.
#[tactic(auto, using(crate::proofs::Decisions::query_told, crate::proofs::Decisions::other_told, crate::proofs::Decisions::none_told, crate::proofs::Decisions::few_told))]
fn query_for(call: Call) -> Option<Query>
    ensures { result ≡ query_for call }
{
    let o = call.operator;
    let f = operators::fields_of(call);
    if o < FIRST_LISTING {
        return None;
    }
    if o < FIRST_OTHER {
        return query_in(operators::pair_listing(o), f);
    }
    query_in(operators::known_other(o)?, f)
}

// Has a list of so many places room for the entries of a query: they are counted only where the tuples could give more.
fn has_room(b: &[u32], q: Query, room: usize) -> bool
    requires { Readable b.now × (length (queried q (tuples_of b.now)) ≤ length (tuples_of b.now)) }
    ensures { result ≡ leb (length (queried q (tuples_of b.now))) room }
{
    if entries::surely_fits(b, room) {
        return true;
    }
    entries::count_entries(b, 0, q) <= room
}

// What a call with an answer list of so many places comes to, on any buffer: all but the list is done.
fn decide(store: &mut [u32], call: Call, room: usize) -> Decision
    ensures { Decided store.old call room result store.new }
{
    let answer = ask(store, call);
    if answer.err() != Some(Refusal::ListTooShort) {
        return Decision::Answered(answer);
    }
    let Some(q) = query_for(call) else {
        return Decision::Answered(answer);
    };
    if has_room(store, q, room) {
        return Decision::Listed(q);
    }
    Decision::Answered(answer)
}

// The place of the pair that was given last.
fn place_of(p: Progress) -> usize
    requires { 1 ≤ p.done }
    ensures { result ≡ p.done - 1 }
{
    p.done - 1
}

// Pair j + 1 written to its place, and the next one found.
// Then the first j + 1 places hold the j + 1 least pairs, and all others what they held.
#[tactic(auto, using(crate::proofs::WrittenPairs::some_done, entries::proofs::Listed::given_packs))]
fn write_pair(b: &[u32], q: Query, p: Progress, given: Entry, list: &mut [Pair]) -> Progress
    requires { Readable b.now × Reached b.now q p × (p.given ≡ Some given) × (p.done ≤ length list.old) }
    ensures { PairWritten b.now q p list.old result list.new }
{
    list[place_of(p)] = entries::lists::pair_of(given);
    entries::lists::next_entry(b, q, p)
}

// All pairs written to the first places of the list, and their number; the rest stays.
fn write_pairs(b: &[u32], q: Query, list: &mut [Pair]) -> usize
    requires { Readable b.now × (length (query_list b.now q) ≤ length list.old) }
    ensures { PairsWritten (query_list b.now q) list.old result list.new }
{
    let begun = entries::lists::begin(b, 0, q);
    let mut p = entries::lists::next_entry(b, q, begun);
    while let Some(given) = p.given {
        p = write_pair(b, q, p, given, list);
    }
    p.done
}

// One call on any buffer, with any numbers as operator and names and any list of pairs.
// By hand: beside `execute`, since the specification names both forms by place, words in the core and pair structs in an outer function.
pub fn execute_pairs(store: &mut [u32], call: Call, list: &mut [Pair]) -> Result<Answer, Refusal>
    ensures { CallInPairs store.old list.old call result store.new list.new }
{
    match decide(store, call, list.len()) {
        Decision::Answered(a) => a,
        Decision::Listed(q) => Ok(Answer::List(write_pairs(store, q, list))),
    }
}
