#![tactic(auto)]
// The C functions of the static library: words and slices in, words out. None requires anything; each leaves every refusal to the store.
ghost use Rattle.std.specs.Prelude.{◌≡◌};
ghost use Rattle.layouts.specs.Stored.{stored};
ghost use Rattle.run.specs.Words.{call_of, bit_of};
ghost use Rattle.gaffdamson.specs.Calls.{Called, CalledInPairs, preparation_words, PreparedAs, run_word, RanAs};

use model::{Call, Pair, Refusal};
use run::{AnswerWords, CallWords};

// The kind of the answer of a buffer that was prepared.
const CAPACITY: u32 = 5;

// The answer of preparing, as words.
fn preparation_words(p: Result<u32, Refusal>) -> AnswerWords
    ensures { result ≡ preparation_words p }
{
    match p {
        Err(refusal) => run::answer_words(Err(refusal)),
        Ok(c) => AnswerWords {
            kind: CAPACITY,
            first: c,
            second: 0,
        },
    }
}

// Prepares the buffer as a store that holds UNIVERSE alone; answers C, or refuses (1).
#[unsafe(no_mangle)]
pub extern "C" fn gaffdamson_prepare(store: &mut [u32]) -> AnswerWords
    ensures { PreparedAs store.old result store.new }
{
    preparation_words(fresh::prepare(store))
}

// Is the buffer a store: 1 for yes, 0 for no.
#[unsafe(no_mangle)]
pub extern "C" fn gaffdamson_is_store(store: &[u32]) -> u32
    ensures { result ≡ bit_of (stored.is_store store.now) }
{
    u32::from(verify::is_store(store))
}

// One call on any buffer; pairs stand in the answer list as edge × 65,536 + node.
#[unsafe(no_mangle)]
pub extern "C" fn gaffdamson_call(
    store: &mut [u32],
    call: CallWords,
    list: &mut [u32],
) -> AnswerWords
    ensures { Called store.old list.old (call_of call) result store.new list.new }
{
    let answer = calls::execute(store, Call::from(call), list);
    run::answer_words(answer)
}

// One call on any buffer; pairs stand in the answer list as structs. By hand: C has no generic function, so each kind of list has its own.
#[unsafe(no_mangle)]
pub extern "C" fn gaffdamson_call_pairs(
    store: &mut [u32],
    call: CallWords,
    list: &mut [Pair],
) -> AnswerWords
    ensures { CalledInPairs store.old list.old (call_of call) result store.new list.new }
{
    let answer = pairs::execute_pairs(store, Call::from(call), list);
    run::answer_words(answer)
}

// What a run comes to, as a word: 0 where all calls were made, else the number of the condition that stopped it.
fn run_word(r: Result<(), Refusal>) -> u32
    ensures { result ≡ run_word r }
{
    match r {
        Ok(()) => 0,
        Err(refusal) => u32::from(refusal),
    }
}

// Runs a whole list of calls; the store is checked once. Answers 0 when all were made, 1 when the buffer is no store, 9 when there is not enough room.
#[unsafe(no_mangle)]
pub extern "C" fn gaffdamson_run(
    store: &mut [u32],
    calls: &[u32],
    answers: &mut [u32],
    lists: &mut [u32],
) -> u32
    ensures { RanAs store.old calls.now answers.old lists.old result store.new answers.new lists.new }
{
    run_word(run::run_calls(store, calls, answers, lists))
}
