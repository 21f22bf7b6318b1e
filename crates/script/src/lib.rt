#![tactic(auto)]
// A script run line by line on a store that is known to be one; what it prints goes to lent bytes.
// An inner layer: what its functions require, their callers have shown; only the entry refuses.
// By hand: store and list are lent to be written, and stand in no struct (`RunReady`); chain says why.
ghost use Rattle.std.specs.Prelude.{◌≡◌, ◌≤◌, leb, length};
ghost use Rattle.model.specs.declared.Refusal.TheVariants.{Unreadable};
ghost use Rattle.model.specs.Steps.{refusal};
ghost use Rattle.layouts.specs.Stored.{stored};
ghost use Rattle.lines.specs.Lines.{lines_of};
ghost use Rattle.print.specs.Answers.{answer_line, most_line, AtFront};
ghost use Rattle.script.specs.Scripts.{most_input};
ghost use Rattle.script.specs.Runs.{RunReady, LineRun, run_lines, BlockRun};

use model::Refusal;

// A bound for the bytes of any line of output, with its line feed.
const MOST_LINE: usize = 24583;
// "It reads at most 65,536 bytes of standard input".
const MOST_INPUT: usize = 65536;

// How far a script was run, and what that put out: two counts of bytes.
#[derive(Clone, Copy)]
pub struct Block {
    // How many bytes of the script were run: those of whole lines, with their line feeds.
    pub consumed: usize,
    // How many bytes were put into the output.
    pub length: usize,
}

// Runs one line, and writes its answer to the front of `out`; says how many bytes that has.
pub fn run_line(store: &mut [u32], list: &mut [u32], line: &[u8], out: &mut [u8]) -> usize
    requires { RunReady store.old list.old × (most_line ≤ length out.old) }
    ensures { LineRun store.old list.old line.now out.old store.new list.new result out.new }
{
    match lines::read_line(line) {
        Ok(call) => {
            let answer = calls::execute_known(store, call, list);
            print::put_answer(out, answer, list)
        }
        Err(refusal) => print::put_answer(out, Err(refusal), list),
    }
}

// Runs the lines of a script, as long as the output has room for any line.
#[tactic(auto, unfolding(lines::specs::Lines::lines_of, crate::specs::Runs::run_lines))]
pub fn run_block(store: &mut [u32], list: &mut [u32], script: &[u8], out: &mut [u8]) -> Block
    requires { RunReady store.old list.old }
    ensures { BlockRun (run_lines (length out.old) (stored.state_of store.old) list.old (lines_of script.now)) store.old list.old script.now out.old result store.new list.new out.new }
{
    let mut at = 0;
    let mut length = 0;
    while at < script.len() {
        if out.len() - length < MOST_LINE {
            return Block {
                consumed: at,
                length,
            };
        }
        let line = lines::line_at(script, at);
        length += run_line(store, list, line, &mut out[length..]);
        // Behind the line's line feed, which the last line may lack.
        at = (at + line.len() + 1).min(script.len());
    }
    Block {
        consumed: at,
        length,
    }
}

// May an input of so many bytes be run: at most 65,536. By hand: a test, which its caller asks before it runs or refuses the input; as a result it would be taken apart at once.
pub fn accepted(bytes: usize) -> bool
    ensures { result ≡ leb bytes most_input }
{
    bytes <= MOST_INPUT
}

// Writes the refusal of an input that is too long.
#[tactic(auto, unfolding(model::specs::OneCall::observed))]
pub fn refuse_input(out: &mut [u8]) -> usize
    requires { most_line ≤ length out.old }
    ensures { AtFront (answer_line (refusal Unreadable)) out.old result out.new }
{
    print::put_answer(out, Err(Refusal::Unreadable), &[])
}
