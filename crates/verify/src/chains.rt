// Words 0 to 3 and the two chains: is each record met exactly once.
// Each function requires what the tests before it have shown.
ghost use Rattle.std.specs.Prelude.{◌≢◌, ◌≡◌, ◌≤◌, Some};
ghost use Rattle.layouts.specs.Buffer.{word, capacity_of};
ghost use Rattle.presence.specs.Presence.{Walkable};
ghost use Rattle.verify.specs.Checks.{heads_fit, walked_on, walked_from, stepped, in_run, along_run, FreeWalk, links_right};

use words::capacity;

// A walk of a chain over at most C records.
// By hand: 0 is no record in its places, as in the link words that it reads.
#[derive(Clone, Copy)]
pub struct Walk {
    // The record that comes next; 0 where the chain has ended.
    pub at: usize,
    // How many more records it may meet.
    pub left: usize,
    // The last record met; 0 where there is none.
    pub last: usize,
}

// What a walk of at most C records from a head finds, where the chain ends.
#[derive(Clone, Copy)]
pub struct Walked {
    // How many records it meets.
    pub count: usize,
    // The last record met; 0 where there is none.
    pub last: usize,
}

// Does the length fit, and do words 0 to 2.
#[tactic(auto, using(crate::proofs::Heads::heads_there), unfolding(crate::specs::Checks::heads_fit))]
pub fn heads_fit(b: &[u32]) -> bool
    ensures { result ≡ heads_fit b.now }
{
    if !words::fits_length(b) {
        return false;
    }
    let c = capacity(b);
    words::head_word(b, 0) == c && words::head_word(b, 1) <= c && words::head_word(b, 2) <= c
}

// One record on; a walk that has ended stays, and so does one that leaves the records.
#[tactic(auto, unfolding(layouts::specs::Buffer::capacity_of, crate::specs::Checks::stepped))]
pub fn step(b: &[u32], w: Walk) -> Walk
    requires { Walkable b.now × (w.left ≢ 0) }
    ensures { result ≡ stepped b.now w }
{
    if w.at == 0 || w.at > capacity(b) {
        return w;
    }
    Walk {
        at: chain::next_of(b, w.at),
        left: w.left - 1,
        last: w.at,
    }
}

// Is the next of a record the one after it in the buffer.
#[tactic(auto, unfolding(layouts::specs::Buffer::capacity_of, crate::specs::Checks::in_run))]
fn in_run(b: &[u32], at: usize) -> bool
    requires { Walkable b.now }
    ensures { result ≡ in_run b.now at }
{
    // By hand: as one expression it takes the walk of a free chain twice the time.
    if at == 0 {
        return false;
    }
    if at > capacity(b) {
        return false;
    }
    let after = at + 1;
    chain::next_of(b, at) == after
}

// Walks on as far as each next is the record after, as in a fresh store: there no read waits for the one before it.
#[tactic(auto, unfolding(crate::specs::Checks::along_run, layouts::specs::Buffer::capacity_of))]
fn along_run(b: &[u32], w: Walk) -> Walk
    requires { Walkable b.now }
    ensures { result ≡ along_run b.now w.left w.at w.last }
{
    let mut at = w.at;
    let mut last = w.last;
    for passed in 0..w.left {
        if !in_run(b, at) {
            return Walk {
                at,
                left: w.left - passed,
                last,
            };
        }
        last = at;
        at += 1;
    }
    Walk { at, left: 0, last }
}

// Walks on until the chain ends, over at most C records in all; gives up where it does not end so.
#[tactic(auto, unfolding(layouts::specs::Buffer::capacity_of, crate::specs::Checks::walked_on))]
fn finish(b: &[u32], w: Walk) -> Option<Walked>
    requires { Walkable b.now × (w.left ≤ capacity_of b.now) }
    ensures { result ≡ walked_on b.now w }
{
    let c = capacity(b);
    let mut left = w.left;
    let mut at = w.at;
    let mut last = w.last;
    // By hand: a turn takes a whole run of records, so no range of turns counts what is left.
    while at != 0 {
        if at > c {
            return None;
        }
        if left == 0 {
            return None;
        }
        let on = along_run(
            b,
            Walk {
                at: chain::next_of(b, at),
                left: left - 1,
                last: at,
            },
        );
        left = on.left;
        at = on.at;
        last = on.last;
    }
    Some(Walked {
        count: c - left,
        last,
    })
}

// Where the used chain ends and is walked: does the free chain end too, do both together meet each record exactly once, and is word 3 right.
// Without marks: they meet C records together, and do not end at the same one. Then each next was met, and is at most C.
pub fn chains_right(b: &[u32], used: Walked, w: Walk) -> bool
    requires { Walkable b.now × (Some used ≡ walked_from b.now (word b.now 1)) × FreeWalk b.now w 0 }
    ensures { result ≡ links_right b.now }
{
    let Some(free) = finish(b, w) else {
        return false;
    };
    used.count + free.count == capacity(b)
        && used.last != free.last
        && words::head_word(b, 3) == used.count
}
