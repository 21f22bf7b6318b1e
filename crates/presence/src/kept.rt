// Records of edge tuples whose second ends the marks do not show, kept to be asked for after the walk. They are local to one check.
// An inner layer: what its functions require, their callers have shown; only the entry refuses.
ghost use Rattle.std.specs.Prelude.{true, ◌≢◌, ◌≡◌, ◌≤◌, ◌<◌, take};
ghost use Rattle.model.specs.Keys.{most_name};
ghost use Rattle.layouts.specs.Buffer.{capacity_of, key_at, tuples_of};
ghost use Rattle.words.specs.Words.{most_index};
ghost use Rattle.presence.specs.Presence.{Sorted, MarksHold, good_key, kept_count, end_there, end_shown};

use super::marks::Marks;
use model::Key;

// Most records that are kept: there are no more in a buffer.
pub const KEPT_COUNT: usize = 2048;

// The kept records, the first so many of the array.
#[derive(Drop)]
pub struct KeptRecords {
    pub records: [u16; KEPT_COUNT],
    pub count: usize,
}

// Is a second end shown by the marks; a node after the first end is not marked yet.
#[tactic(auto, unfolding(crate::specs::Presence::end_shown))]
fn end_shown(marks: &Marks, k: Key) -> bool
    requires { (k.s ≤ most_name) × (k.m ≤ most_name) }
    ensures { result ≡ end_shown marks.now.words k }
{
    k.m <= k.n && marks.shows_node(k.s, k.m)
}

// Is the second end there of record i; other keys have none.
#[tactic(auto, unfolding(layouts::specs::Buffer::capacity_of, crate::specs::Presence::end_there, crate::specs::Presence::good_key, layouts::specs::Buffer::key_at))]
fn end_there(b: &[u32], marks: &Marks, i: usize) -> bool
    requires { Sorted b.now × MarksHold b.now marks.now.words × ((i ≢ 0) × (i ≤ capacity_of b.now) × (good_key (key_at b.now i) ≡ true)) }
    ensures { result ≡ end_there (tuples_of b.now) (key_at b.now i) }
{
    let k = words::key_of(b, i);
    k.g == 0 || marks.has_node(b, k.s, k.m)
}

impl KeptRecords {
    ghost use Rattle.presence.specs.Presence.{none_kept, pushed, kept_unless_shown, KeptHold, every_end};

    // No records.
    pub fn new() -> KeptRecords
        ensures { result ≡ none_kept }
    {
        KeptRecords {
            records: [0; KEPT_COUNT],
            count: 0,
        }
    }

    // Keeps record i too.
    #[tactic(auto, unfolding(crate::specs::Presence::pushed))]
    fn push(&mut self, i: usize)
        requires { (self.old.count < kept_count) × (i ≤ most_index) }
        ensures { self.new ≡ pushed self.old i }
    {
        self.records[self.count] = i as u16;
        self.count += 1;
    }

    // The records that are kept.
    fn as_slice(&self) -> &[u16]
        requires { self.now.count ≤ kept_count }
        ensures { result.now ≡ take self.now.count self.now.records }
    {
        &self.records[..self.count]
    }

    // Keeps record `at` of an edge with key k where its second end is not shown.
    #[tactic(auto, unfolding(crate::specs::Presence::kept_unless_shown))]
    pub(crate) fn keep_end(&mut self, marks: &Marks, k: Key, at: usize)
        requires { (self.old.count < kept_count) × (k.s ≤ most_name) × (k.m ≤ most_name) × (at ≤ most_index) }
        ensures { self.new ≡ kept_unless_shown marks.now.words self.old k at }
    {
        if !end_shown(marks, k) {
            self.push(at);
        }
    }

    // Are the second ends there of the records that are kept.
    pub(crate) fn all_ends(&self, b: &[u32], marks: &Marks) -> bool
        requires { Sorted b.now × MarksHold b.now marks.now.words × KeptHold b.now self.now }
        ensures { result ≡ every_end b.now self.now }
    {
        for &i in self.as_slice() {
            if !end_there(b, marks, usize::from(i)) {
                return false;
            }
        }
        true
    }
}
