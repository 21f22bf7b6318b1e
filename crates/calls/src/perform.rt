// The step of an operator on a store, where nothing stops the call.
// An inner layer: what its functions require, their callers have shown; only the entry refuses.
ghost use Rattle.std.specs.Prelude.{true, ◌≡◌, length, Ok};
ghost use Rattle.layouts.specs.Buffer.{tuples_of, is_store};
ghost use Rattle.model.specs.Steps.{idle_reply};
ghost use Rattle.model.specs.OneCall.{answer_of};
ghost use Rattle.chain.specs.Links.{Edited};
ghost use Rattle.located.specs.Located.{NearIn};
ghost use Rattle.calls.specs.Perform.{Ready, Performed};

use located::Near;
use model::{Answer, Fields, Operator};

// What an operator answers with nothing as its space, where `name` is the call's first argument: no store is read or written.
// Condition 12 stops V before. By hand: its value here is that of the definition, and no Option, which would be a case that no call reaches.
#[tactic(auto, unfolding(model::specs::OneCall::answer_of, model::specs::Steps::idle_reply))]
pub fn idle(op: Operator, name: u16) -> Answer
    ensures { Ok result ≡ answer_of (idle_reply op name) }
{
    match op {
        Operator::Create(_) => Answer::Added(name, 0),
        Operator::Bind(_) => Answer::Name(name),
        Operator::Value(_) => Answer::Value(0),
        Operator::Exists(_) => Answer::YesNo(false),
        Operator::Destroy(_) => Answer::Removed(name, 0),
        Operator::List(_) => Answer::List(0),
    }
}

// The step of an operator, and its answer: C and D tell how many tuples there are more or fewer than before. `near` and `universe` are hints in the call's space and in UNIVERSE, `name` is the call's first argument.
// By hand: a match on the operator; operators are a closed set, and closures for their steps would be no shorter.
pub fn perform(
    store: &mut [u32],
    near: Near,
    universe: Near,
    op: Operator,
    f: Fields,
    name: u16,
    list: &mut [u32],
) -> Answer
    requires { (is_store store.old ≡ true) × NearIn store.old near × NearIn store.old universe × Ready op f store.old (length list.old) }
    ensures { Performed op name f store.old list.old result store.new list.new }
{
    match op {
        Operator::Create(o) => {
            let before = edit::tuple_count(store);
            steps::create(store, near, universe, o, f);
            Answer::Added(name, edit::tuple_count(store) - before)
        }
        Operator::Bind(o) => {
            steps::bind(store, near, o, f);
            Answer::Name(name)
        }
        Operator::Value(o) => Answer::Value(steps::value_of(store, near, o, f)),
        Operator::Exists(o) => Answer::YesNo(steps::exists(store, near, o, f)),
        Operator::Destroy(r) => {
            let before = edit::tuple_count(store);
            removals::destroy(store, near, r, f);
            Answer::Removed(name, before - edit::tuple_count(store))
        }
        Operator::List(l) => Answer::List(listings::write_listed(store, near, l, f, list)),
    }
}
