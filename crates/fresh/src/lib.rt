#![tactic(auto)]
// Preparing a buffer: a fresh store, which holds UNIVERSE alone.
ghost use Rattle.std.specs.Prelude.{true, ◌≡◌, ◌+◌, ◌-◌, ◌*◌, ◌≤◌, length};
ghost use Rattle.layouts.specs.Buffer.{head_words, record_words, fits_length, capacity_of, follower, Preparing};
ghost use Rattle.words.specs.Words.{most_index, Inside};
ghost use Rattle.fresh.specs.Prepare.{headed, universe_in, chained, prepared_buffer, after_preparing};

use model::{NIL, Refusal};

// The free record after record i in ascending order; 0 after the last.
// By hand: 0 is no record, as in the link word that it is written to.
#[tactic(auto, unfolding(layouts::specs::Buffer::follower))]
fn follower_of(c: usize, i: usize) -> usize
    requires { i ≤ most_index }
    ensures { result ≡ follower c i }
{
    if i < c {
        return i + 1;
    }
    0
}

// Words 0 to 3 of a store that holds UNIVERSE alone.
// By hand: c beside the buffer, here and below, since the definitions are over any c.
#[tactic(auto, using(crate::proofs::Preparing::heads_put, layouts::proofs::Prepared::follower_most))]
fn put_heads(b: &mut [u32], c: usize)
    requires { (head_words ≤ length b.old) × (c ≤ 2048) }
    ensures { b.new ≡ headed c b.old }
{
    let free = follower_of(c, 1);
    words::put_head_word(b, 0, c);
    words::put_head_word(b, 1, 1);
    words::put_head_word(b, 2, free);
    words::put_head_word(b, 3, 1);
}

// UNIVERSE with NIL in record 1, which ends its chain.
#[tactic(auto, unfolding(crate::specs::Prepare::universe_in))]
fn put_universe(b: &mut [u32])
    requires { Inside b.old 1 }
    ensures { b.new ≡ universe_in b.old }
{
    let universe = words::node_key(0, 0);
    words::put_next(b, 1, 0);
    words::put_tuple(b, 1, universe, NIL);
}

// Records 2 to C chained as free in ascending order.
#[tactic(auto, unfolding(crate::specs::Prepare::chained))]
fn chain_free(b: &mut [u32], c: usize)
    requires { (head_words + record_words * c ≤ length b.old) × (c ≤ 2048) }
    ensures { b.new ≡ chained c b.old (c - 1) }
{
    for i in 2..c + 1 {
        let next = follower_of(c, i);
        words::put_next(b, i, next);
    }
}

// A buffer whose length fits becomes a store that holds UNIVERSE alone; the answer is C.
fn fill(buffer: &mut [u32]) -> usize
    requires { fits_length buffer.old ≡ true }
    ensures value { result ≡ capacity_of buffer.old }
    ensures words { buffer.new ≡ prepared_buffer buffer.old }
{
    let c = words::capacity(buffer);
    put_heads(buffer, c);
    put_universe(buffer);
    chain_free(buffer, c);
    c
}

// Prepares the buffer as a store that holds UNIVERSE alone, and gives C; a length that does not fit is refused (1).
pub fn prepare(buffer: &mut [u32]) -> Result<u32, Refusal>
    ensures rules { Preparing buffer.old result buffer.new }
    ensures words { buffer.new ≡ after_preparing buffer.old }
{
    if !words::fits_length(buffer) {
        return Err(Refusal::NotAStore);
    }
    let c = fill(buffer);
    Ok(c as u32)
}
