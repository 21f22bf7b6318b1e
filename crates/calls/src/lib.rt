#![tactic(auto)]
// The entry: one call of the operators 1 to 57 on a buffer.
// By hand: that the words are a store stands in no struct; chain says why.
mod perform;

ghost use Rattle.std.specs.Prelude.{true, false, ◌≡◌, length};
ghost use Rattle.std.proofs.Math.Option.{none};
ghost use Rattle.model.specs.Refusals.{selects_nothing, first, of_call};
ghost use Rattle.model.specs.OneCall.{OnStore, OneCall};
ghost use Rattle.layouts.specs.Stored.{stored};
ghost use Rattle.entries.specs.Queries.{written_pairs};
ghost use Rattle.calls.specs.AtOnce.{listed_at_once, some_count};

use located::Near;
use model::{Answer, Call, Direction, Fields, Listing, Refusal};
use refusals::NamedCall;

// SIN, whose entries each show that its node is there.
const SIN: u32 = 40;

// The entries of a SIN, written to the list without a search for n, and their number.
// None for other operators, where the list might be too short, and where there is no entry.
fn list_at_once(b: &[u32], number: u32, f: Fields, list: &mut [u32]) -> Option<usize>
    requires { stored.is_store b.now ≡ true }
    ensures value { result ≡ some_count (listed_at_once number f (stored.state_of b.now) (length list.old)) }
    ensures list { list.new ≡ written_pairs (listed_at_once number f (stored.state_of b.now) (length list.old)) list.old }
{
    if number != SIN {
        return None;
    }
    let nodes = Listing::N(Direction::Inpointing);
    if !listings::surely_fits(b, list.len()) {
        return None;
    }
    // By hand: tried as `Near::default()`, of which no proof outside its crate learned what it is.
    let nowhere = Near {
        space: 0,
        node: 0,
        second: 0,
    };
    let k = listings::write_listed(b, nowhere, nodes, f, list);
    if k == 0 {
        return None;
    }
    Some(k)
}

// A call on a store that no condition on the call alone stops, and whose space is looked up.
#[tactic(auto, unfolding(model::specs::Refusals::first, model::specs::Refusals::of_call, model::specs::Refusals::selects_nothing))]
fn look_up(store: &mut [u32], a: NamedCall, list: &mut [u32]) -> Result<Answer, Refusal>
    requires { (stored.is_store store.old ≡ true) × (first (of_call a.read.call) ≡ none) × (selects_nothing a.read.call ≡ false) }
    ensures { OnStore stored store.old list.old a.read.call result store.new list.new }
{
    let d = a.read.decoded;
    let above = located::locate_universe(store, d);
    let l = located::locate(store, above, d);
    let near = l.near;
    let universe = located::also_in_universe(near, above, d.fields.s);
    refusals::check_store(store, d, l, universe, list.len())?;
    let name = a.read.first_argument();
    Ok(perform::perform(store, near, universe, d.operator, d.fields, name, list))
}

// One call on a buffer that the caller has proved to be a store: no check is paid.
// It is for code in Rattle, as runs and scripts are; `execute` is the entry that refuses a buffer which is none.
pub fn execute_known(store: &mut [u32], call: Call, list: &mut [u32]) -> Result<Answer, Refusal>
    requires { stored.is_store store.old ≡ true }
    ensures { OnStore stored store.old list.old call result store.new list.new }
{
    let a = NamedCall::admit(call)?;
    let d = a.read.decoded;
    if a.read.selects_nothing() {
        return Ok(perform::idle(d.operator, a.read.first_argument()));
    }
    if let Some(k) = list_at_once(store, a.read.call.operator, d.fields, list) {
        return Ok(Answer::List(k));
    }
    look_up(store, a, list)
}

// One call on any buffer, with any numbers as operator and names and any answer list.
pub fn execute(store: &mut [u32], call: Call, list: &mut [u32]) -> Result<Answer, Refusal>
    ensures { OneCall stored store.old list.old call result store.new list.new }
{
    if !verify::is_store(store) {
        return Err(Refusal::NotAStore);
    }
    execute_known(store, call, list)
}
