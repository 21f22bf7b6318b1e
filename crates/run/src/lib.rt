#![tactic(auto)]
// A whole list of calls, from words to words: the store is checked once and then known by proof.
ghost use Rattle.std.specs.Prelude.{true, ◌≡◌, ◌*◌, ◌≤◌, leb, length};
ghost use Rattle.model.specs.OneCall.{list_count};
ghost use Rattle.layouts.specs.Stored.{stored};
ghost use Rattle.run.specs.Words.{words_in_call, words_in_answer, name_in, value_of_form, space_of_form, call_of, call_words, call_in, room_in, request_in, call_count, calls_in, answer_words, answer_list};
ghost use Rattle.run.specs.Runs.{rooms_of, call_made, calls_made, OneRun, LeftByRun, Ran};

use model::{Answer, Call, EdgeName, NIL, NodeName, Refusal, Space, SpaceName};

// Words of a call in a list of calls, and of an answer.
const WORDS_IN_CALL: usize = 9;

// The place of the list's length among the words of a call.
const ROOM: usize = 8;

const WORDS_IN_ANSWER: usize = 3;

// The forms of a value and of a space that do not take the number beside them.
const NIL_FORM: u32 = 0;

const UNIVERSE_FORM: u32 = 0;

const NOTHING_FORM: u32 = 2;

// The kinds of answers. By hand: these are the words that C sees.
const REFUSAL: u32 = 0;

const NAME: u32 = 1;

const VALUE: u32 = 2;

const YES_NO: u32 = 3;

const LIST: u32 = 4;

const ADDED: u32 = 6;

const REMOVED: u32 = 7;

// A call as words, with the layout of C: a word for each field, and for the value and the space one more for its form.
#[repr(C)]
#[derive(Clone, Copy)]
pub struct CallWords {
    // Any number; 1 to 57 are operators.
    pub operator: u32,
    pub n: u32,
    pub g: u32,
    pub m: u32,
    // 0 for NIL, any other number for v.
    pub value_form: u32,
    pub v: u32,
    // 0 for UNIVERSE, 2 for nothing, any other number for the space s.
    pub space_form: u32,
    pub s: u32,
}

// An answer as words, with the layout of C: its kind, and what it carries.
#[repr(C)]
#[derive(Clone, Copy)]
pub struct AnswerWords {
    pub kind: u32,
    pub first: u32,
    pub second: u32,
}

// A word as a name. Names have 16 bits: a greater number is no name and stands for 0, which is refused where the name is read.
// By hand: no Option, since C has no names of 16 bits, and one that is none is refused as 0 is.
#[tactic(auto, unfolding(crate::specs::Words::name_in))]
fn name_in(w: u32) -> u16
    ensures { result ≡ name_in w }
{
    u16::try_from(w).unwrap_or(0)
}

// The value of a call, by its form.
#[tactic(auto, unfolding(crate::specs::Words::value_of_form))]
fn value_of_form(form: u32, v: u32) -> u32
    ensures { result ≡ value_of_form form v }
{
    if form == NIL_FORM {
        return NIL;
    }
    v
}

// The space of a call, by its form.
#[tactic(auto, unfolding(crate::specs::Words::space_of_form))]
fn space_of_form(form: u32, s: u32) -> Space
    ensures { result ≡ space_of_form form s }
{
    match form {
        UNIVERSE_FORM => Space::Universe,
        NOTHING_FORM => Space::Nothing,
        _ => Space::Numbered(SpaceName(name_in(s))),
    }
}

// The call that words are.
impl From<CallWords> for Call {
    ghost from_gives = { λ w call. call ≡ call_of w };

    #[tactic(auto, using(crate::proofs::WordLaws::call_joined))]
    fn from(w: CallWords) -> Call {
        Call {
            operator: w.operator,
            n: NodeName(name_in(w.n)),
            g: EdgeName(name_in(w.g)),
            m: NodeName(name_in(w.m)),
            v: value_of_form(w.value_form, w.v),
            s: space_of_form(w.space_form, w.s),
        }
    }
}

// The first eight of the nine words of a call.
#[tactic(auto, unfolding(crate::specs::Words::call_words))]
fn call_words(words: &[u32]) -> CallWords
    requires { length words.now ≡ words_in_call }
    ensures { result ≡ call_words words.now }
{
    CallWords {
        operator: words[0],
        n: words[1],
        g: words[2],
        m: words[3],
        value_form: words[4],
        v: words[5],
        space_form: words[6],
        s: words[7],
    }
}

// The call that nine words are.
fn call_in(words: &[u32]) -> Call
    requires { length words.now ≡ words_in_call }
    ensures { result ≡ call_in words.now }
{
    Call::from(call_words(words))
}

// The length of the answer list that nine words give a call.
fn room_in(words: &[u32]) -> usize
    requires { length words.now ≡ words_in_call }
    ensures { result ≡ room_in words.now }
{
    words[ROOM] as usize
}

// Do the answer lists of all calls fit in so much room.
fn lists_fit(calls: &[u32], room: usize) -> bool
    ensures { result ≡ leb (rooms_of (calls_in calls.now)) room }
{
    let mut left = room;
    for words in calls.chunks_exact(WORDS_IN_CALL) {
        let one = room_in(words);
        if left < one {
            return false;
        }
        left -= one;
    }
    true
}

// An answer as words; the count of a list that a store gives fits, as the callers, runs and the C functions, have shown.
#[tactic(auto, unfolding(model::specs::OneCall::list_count, crate::specs::Words::kind_of, crate::specs::Words::first_of, crate::specs::Words::second_of))]
pub fn answer_words(a: Result<Answer, Refusal>) -> AnswerWords
    requires { list_count a ≤ 4294967295 }
    ensures { result ≡ answer_words a }
{
    let (kind, first, second) = match a {
        Err(refusal) => (REFUSAL, u32::from(refusal), 0),
        Ok(Answer::Name(x)) => (NAME, u32::from(x), 0),
        Ok(Answer::Added(x, k)) => (ADDED, u32::from(x), k),
        Ok(Answer::Removed(x, k)) => (REMOVED, u32::from(x), k),
        Ok(Answer::Value(v)) => (VALUE, v, u32::from(v != NIL)),
        Ok(Answer::YesNo(b)) => (YES_NO, u32::from(b), 0),
        Ok(Answer::List(k)) => (LIST, k as u32, 0),
    };
    AnswerWords {
        kind,
        first,
        second,
    }
}

// Writes the three words of an answer.
#[tactic(auto, using(crate::proofs::WordLaws::answer_written), unfolding(model::specs::OneCall::list_count))]
fn put_answer(words: &mut [u32], a: Result<Answer, Refusal>)
    requires { (length words.old ≡ words_in_answer) × (list_count a ≤ 4294967295) }
    ensures { words.new ≡ answer_list a }
{
    let w = answer_words(a);
    words.copy_from_slice(&[w.kind, w.first, w.second]);
}

// Makes the call that nine words are with its own answer list, and writes the three words of its answer.
#[tactic(auto, using(crate::proofs::Turns::count_small, crate::proofs::Turns::one_run), unfolding(crate::specs::Runs::call_made))]
fn run_one(store: &mut [u32], call: &[u32], answer: &mut [u32], list: &mut [u32])
    requires { (stored.is_store store.old ≡ true) × (length call.now ≡ words_in_call) × (length answer.old ≡ words_in_answer) × (length list.old ≡ room_in call.now) }
    ensures { OneRun (call_made (stored.capacity_of store.old) (stored.state_of store.old) (request_in call.now) list.old) store.old store.new answer.new list.new }
{
    let answered = calls::execute_known(store, call_in(call), list);
    put_answer(answer, answered);
}

// Makes all calls of a list, one after the other.
#[tactic(auto, unfolding(crate::specs::Words::calls_in, crate::specs::Words::calls_from, crate::specs::Runs::calls_made, crate::specs::Runs::rooms_of))]
fn run_all(store: &mut [u32], calls: &[u32], answers: &mut [u32], lists: &mut [u32])
    requires { (stored.is_store store.old ≡ true) × (words_in_answer * call_count calls.now ≤ length answers.old) × (rooms_of (calls_in calls.now) ≤ length lists.old) }
    ensures { LeftByRun (calls_made (stored.capacity_of store.old) (stored.state_of store.old) (calls_in calls.now) lists.old) store.old answers.old lists.old store.new answers.new lists.new }
{
    let count = calls.len() / WORDS_IN_CALL;
    let mut at = 0;
    // By hand: places and not chunks, since of what `chunks_exact_mut` gives no proof knows the elements afterwards.
    for i in 0..count {
        let call = &calls[WORDS_IN_CALL * i..WORDS_IN_CALL * (i + 1)];
        let answer = &mut answers[WORDS_IN_ANSWER * i..WORDS_IN_ANSWER * (i + 1)];
        let end = at + room_in(call);
        run_one(store, call, answer, &mut lists[at..end]);
        at = end;
    }
}

// Runs the calls that stand in `calls`: all are made, unless the buffer is no store (1) or there is not enough room (9).
pub fn run_calls(
    store: &mut [u32],
    calls: &[u32],
    answers: &mut [u32],
    lists: &mut [u32],
) -> Result<(), Refusal>
    ensures { Ran store.old calls.now answers.old lists.old result store.new answers.new lists.new }
{
    if !verify::is_store(store) {
        return Err(Refusal::NotAStore);
    }
    if answers.len() < WORDS_IN_ANSWER * (calls.len() / WORDS_IN_CALL) {
        return Err(Refusal::ListTooShort);
    }
    if !lists_fit(calls, lists.len()) {
        return Err(Refusal::ListTooShort);
    }
    run_all(store, calls, answers, lists);
    Ok(())
}
