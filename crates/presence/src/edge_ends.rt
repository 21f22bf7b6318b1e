// Has each edge tuple its two ends.
// The walk requires that the used chain ends and its keys ascend from (0,0,0,0).
ghost use Rattle.std.specs.Prelude.{◌≡◌};
ghost use Rattle.layouts.specs.Buffer.{tuples_of};
ghost use Rattle.model.specs.Rules.{every_key};
ghost use Rattle.words.specs.Words.{Inside};
ghost use Rattle.presence.specs.Presence.{Sorted, ends_present, space_start};

use super::seek::{holds_from, is_at, is_before};
use words::node_key;

// The first record of the space of record i, from that of the record before it.
#[tactic(auto, unfolding(crate::specs::Presence::space_start))]
fn space_start(b: &[u32], first: usize, i: usize) -> usize
    requires { Inside b.now first × Inside b.now i }
    ensures { result ≡ space_start b.now first i }
{
    let k = words::key_of(b, first);
    let j = words::key_of(b, i);
    if k.s == j.s {
        return first;
    }
    i
}

// Has every edge tuple its two node tuples: ends at the first edge tuple without both ends.
// Keys ascend, so an end is sought from the first record of the edge's own space to the first key that is not below it.
pub fn edges_ended(b: &[u32]) -> bool
    requires { Sorted b.now }
    ensures { result ≡ every_key (ends_present (tuples_of b.now)) (tuples_of b.now) }
{
    let mut space = words::head_word(b, 1);
    let mut at = chain::next_of(b, space);
    'tuples: while at != 0 {
        let k = words::key_of(b, at);
        space = space_start(b, space, at);
        if k.g == 0 {
            at = chain::next_of(b, at);
            continue;
        }
        if !holds_from(b, space, node_key(k.s, k.n)) {
            break 'tuples;
        }
        let end = node_key(k.s, k.m);
        let mut seek = space;
        while !is_at(b, seek, end) {
            if !is_before(b, seek, end) {
                break 'tuples;
            }
            seek = chain::next_of(b, seek);
        }
        at = chain::next_of(b, at);
    }
    at == 0
}
