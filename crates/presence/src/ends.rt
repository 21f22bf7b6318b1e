// What tuples name, looked for while the used chain is walked; second ends that come later are kept in a list.
// Keys ascend, so a tuple's space and an edge's first end are those of the tuple before it.
// An inner layer: what its functions require, their callers have shown; only the entry refuses.
ghost use Rattle.std.specs.Prelude.{true, ◌&&◌, ◌≡◌, ◌≤◌, ◌<◌};
ghost use Rattle.model.specs.Keys.{most_name};
ghost use Rattle.words.specs.Words.{most_index};
ghost use Rattle.presence.specs.Presence.{Walkable, MarksFit, good_key, kept_count, node_settled, edge_settled, settled, kept_with, with_named};

use super::kept::KeptRecords;
use super::marks::Marks;
use model::Key;

// Is all shown so far, and now what a key without g names.
#[tactic(auto, unfolding(crate::specs::Presence::node_settled))]
fn node_sure(marks: &Marks, sure: bool, key: Key, k: Key) -> bool
    requires { k.n ≤ most_name }
    ensures { result ≡ (sure && node_settled marks.now.words key k) }
{
    sure && (k.n == 0 || k.s == key.s && (k.s == 0 || marks.shows_node(0, k.n)))
}

// Is all shown so far, and now what an edge's key names but its second end.
#[tactic(auto, unfolding(crate::specs::Presence::edge_settled))]
fn edge_sure(b: &[u32], marks: &Marks, sure: bool, key: Key, k: Key) -> bool
    requires { Walkable b.now × MarksFit b.now marks.now.words }
    ensures { result ≡ (sure && edge_settled b.now marks.now.words key k) }
{
    sure && k.s == key.s && k.n == key.n && (k.s == 0 || marks.shows_edge(b, k))
}

// Takes record `at` with key k, which follows another: looks for what it names, keeps it where its second end is not shown, and marks it.
// Gives whether all is there still that the tuples name, but for second ends that are kept; what is kept decides where it is.
#[tactic(auto, unfolding(crate::specs::Presence::settled, crate::specs::Presence::with_named, crate::specs::Presence::kept_with, crate::specs::Presence::nothing_kept, crate::specs::Presence::kept_unless_shown))]
pub fn take(
    b: &[u32],
    marks: &mut Marks,
    kept: &mut KeptRecords,
    sure: bool,
    key: Key,
    k: Key,
    at: usize,
) -> bool
    requires { Walkable b.now × MarksFit b.now marks.old.words × (kept.old.count < kept_count) × (good_key k ≡ true) × (at ≤ most_index) }
    ensures answer { result ≡ (sure && settled b.now marks.old.words key k) }
    ensures marked { marks.new.words ≡ with_named marks.old.words k at }
    ensures kept { kept.new ≡ kept_with marks.old.words kept.old k at }
{
    if k.g == 0 {
        let sure = node_sure(marks, sure, key, k);
        marks.mark_node(k);
        return sure;
    }
    let sure = edge_sure(b, marks, sure, key, k);
    kept.keep_end(marks, k, at);
    marks.mark_edge(k, at);
    sure
}
