#![tactic(auto)]
// Answers as lines of text in lent bytes.
// An inner layer: what its functions require, their callers have shown; only the entry refuses.
mod line;

ghost use Rattle.model.specs.OneCall.{observed};
ghost use Rattle.print.specs.Answers.{answer_line, AtFront, Printable};

use line::Line;
use model::{Answer, Refusal};

// Writes the line of an answer, with the list that was lent to the call, to the front of `out`; says how many bytes it has.
#[tactic(auto, unfolding(crate::specs::Answers::answer_line, model::specs::OneCall::observed))]
pub fn put_answer(out: &mut [u8], a: Result<Answer, Refusal>, list: &[u32]) -> usize
    requires { Printable (answer_line (observed a list.now)) a list.now out.old 0 }
    ensures { AtFront (answer_line (observed a list.now)) out.old result out.new }
{
    let mut line = Line { out, at: 0 };
    line.put_result(a, list);
    line.put_byte(b'\n');
    line.at
}
