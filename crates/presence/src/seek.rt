// A key sought in a chain whose keys ascend.
// Each requires that the chain ends; the search, that its keys ascend.
ghost use Rattle.std.specs.Prelude.{◌≡◌, ◌≤◌};
ghost use Rattle.model.specs.Tuples.{present};
ghost use Rattle.layouts.specs.Buffer.{capacity_of};
ghost use Rattle.presence.specs.Presence.{Walkable, tuples_from, Seekable, is_at, is_before};

use model::Key;

// Does record i have this key.
// By hand: beside `edit::held_at`, since here the chain is not known to be linked.
#[tactic(auto, unfolding(layouts::specs::Buffer::capacity_of, crate::specs::Presence::is_at))]
pub fn is_at(b: &[u32], i: usize, k: Key) -> bool
    requires { Walkable b.now × (i ≤ capacity_of b.now) }
    ensures { result ≡ is_at b.now i k }
{
    i != 0 && words::key_same(words::key_of(b, i), k)
}

// Does record i have a key below this one.
#[tactic(auto, unfolding(layouts::specs::Buffer::capacity_of, crate::specs::Presence::is_before))]
pub fn is_before(b: &[u32], i: usize, k: Key) -> bool
    requires { Walkable b.now × (i ≤ capacity_of b.now) }
    ensures { result ≡ is_before b.now i k }
{
    i != 0 && words::key_below(words::key_of(b, i), k)
}

// Is a key in the chain from a record on: a walk to the first key that is not below it.
pub fn holds_from(b: &[u32], from: usize, k: Key) -> bool
    requires { Seekable b.now from }
    ensures { result ≡ present k (tuples_from b.now from) }
{
    let mut at = from;
    while is_before(b, at, k) {
        at = chain::next_of(b, at);
    }
    is_at(b, at, k)
}
