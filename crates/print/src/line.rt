// A line that is being written: lent bytes, and how far they are written.
ghost use Rattle.std.specs.Prelude.{[], ◌∷◌, ◌++◌, map, ◌≡◌, ◌≤◌, ◌<◌, Ok, length, take};
ghost use Rattle.model.specs.OneCall.{unpack, observed};
ghost use Rattle.model.specs.Steps.{pairs};
ghost use Rattle.text.specs.Bytes.{equals_sign};
ghost use Rattle.text.specs.Numerals.{printed_number};
ghost use Rattle.print.specs.Answers.{signed, change, yes_or_no, entry_text, entries_text, answer_text, Room, Adds, Printable};

use itoa::write_digits;
use model::{Answer, NAME_COUNT, Refusal};

// How many digits a number has.
#[tactic(auto, using(text::proofs::Printing::printed_one, text::proofs::Printing::printed_length))]
fn digit_count(x: u32) -> usize
    ensures { result ≡ length (printed_number x) }
{
    if x < 10 {
        return 1;
    }
    x.ilog10() as usize + 1
}

// A line is written by these methods and not by `write!`, which gives a Result: a line for which there is room cannot fail to be written.
#[derive(Drop)]
pub struct Line<'a> {
    pub out: &'a mut [u8],
    // Where the next byte goes.
    pub at: usize,
}

// What an entry is made of is always built into its callers: as calls, a line of many entries takes a third longer. So is a sign with its number: as a call, a script of short lines takes a quarter longer.
impl Line<'_> {
    // Writes one byte.
    #[inline(always)]
    pub fn put_byte(&mut self, b: u8)
        requires { Room (b ∷ []) self.old }
        ensures { Adds (b ∷ []) self.old self.new }
    {
        self.put_text(&[b]);
    }

    // Writes a text.
    #[inline(always)]
    #[tactic(auto, using(crate::proofs::Puts::text_put))]
    fn put_text(&mut self, text: &[u8])
        requires { Room text.now self.old }
        ensures { Adds text.now self.old self.new }
    {
        let end = self.at + text.len();
        self.out[self.at..end].copy_from_slice(text);
        self.at = end;
    }

    // Writes a number.
    #[inline(always)]
    #[tactic(auto, using(crate::proofs::Puts::decimal_printed, crate::proofs::Puts::number_put))]
    fn put_number(&mut self, x: u32)
        requires { Room (printed_number x) self.old }
        ensures { Adds (printed_number x) self.old self.new }
    {
        let end = self.at + digit_count(x);
        write_digits(u64::from(x), self.out, end);
        self.at = end;
    }

    // Writes a sign, a blank and a number.
    #[inline(always)]
    fn put_signed(&mut self, sign: u8, x: u32)
        requires { Room (signed sign x) self.old }
        ensures { Adds (signed sign x) self.old self.new }
    {
        self.put_byte(sign);
        self.put_byte(b' ');
        self.put_number(x);
    }

    // Writes a name and, behind a sign, how many tuples were added or removed.
    fn put_changed(&mut self, x: u32, sign: u8, k: u32)
        requires { Room (signed equals_sign x ++ change sign k) self.old }
        ensures { Adds (signed equals_sign x ++ change sign k) self.old self.new }
    {
        self.put_signed(b'=', x);
        self.put_byte(b' ');
        self.put_byte(sign);
        self.put_number(k);
    }

    // Writes T or NIL.
    #[tactic(auto, unfolding(crate::specs::Answers::entries_text, crate::specs::Answers::yes_or_no))]
    fn put_yes_or_no(&mut self, yes: bool)
        requires { Room (yes_or_no yes) self.old }
        ensures { Adds (yes_or_no yes) self.old self.new }
    {
        if yes {
            self.put_text(b"T");
        } else {
            self.put_text(b"NIL");
        }
    }

    // Writes an entry of the answer list: a blank, its edge, a colon, its node.
    #[inline(always)]
    #[tactic(auto, unfolding(crate::specs::Answers::entries_text, crate::specs::Answers::entry_text))]
    fn put_entry(&mut self, w: u32)
        requires { Room (entry_text (unpack w)) self.old }
        ensures { Adds (entry_text (unpack w)) self.old self.new }
    {
        self.put_byte(b' ');
        self.put_number(w / NAME_COUNT);
        self.put_byte(b':');
        self.put_number(w % NAME_COUNT);
    }

    // Writes entries of the answer list.
    #[tactic(auto, unfolding(crate::specs::Answers::answer_text, crate::specs::Answers::entries_text))]
    fn put_entries(&mut self, list: &[u32])
        requires { Room (entries_text (map unpack list.now)) self.old }
        ensures { Adds (entries_text (map unpack list.now)) self.old self.new }
    {
        for &w in list {
            self.put_entry(w);
        }
    }

    // Writes L, a count and so many entries of the answer list.
    #[tactic(auto, unfolding(crate::specs::Answers::answer_text, model::specs::OneCall::observed))]
    fn put_list(&mut self, list: &[u32], k: usize)
        requires { (k ≤ length list.now) × (k ≤ 4294967295) × Room (answer_text (pairs k (map unpack (take k list.now)))) self.old }
        ensures { Adds (answer_text (pairs k (map unpack (take k list.now)))) self.old self.new }
    {
        self.put_signed(b'L', k as u32);
        self.put_entries(&list[..k]);
    }

    // Writes the text of an answer.
    #[tactic(auto, unfolding(crate::specs::Answers::answer_text, model::specs::OneCall::observed, model::specs::OneCall::list_count))]
    fn put_answer(&mut self, a: Answer, list: &[u32])
        requires { Printable (answer_text (observed (Ok a) list.now)) (Ok a) list.now self.old.out.now self.old.at }
        ensures { Adds (answer_text (observed (Ok a) list.now)) self.old self.new }
    {
        match a {
            Answer::Name(x) => self.put_signed(b'=', u32::from(x)),
            Answer::Added(x, k) => self.put_changed(u32::from(x), b'+', k),
            Answer::Removed(x, k) => self.put_changed(u32::from(x), b'-', k),
            Answer::Value(v) => self.put_signed(b'V', v),
            Answer::YesNo(b) => self.put_yes_or_no(b),
            Answer::List(k) => self.put_list(list, k),
        }
    }

    // Writes the text of an answer, or of a refusal.
    pub fn put_result(&mut self, a: Result<Answer, Refusal>, list: &[u32])
        requires { Printable (answer_text (observed a list.now)) a list.now self.old.out.now self.old.at }
        ensures { Adds (answer_text (observed a list.now)) self.old self.new }
    {
        match a {
            Ok(answer) => self.put_answer(answer, list),
            Err(refusal) => self.put_signed(b'R', u32::from(refusal)),
        }
    }
}
