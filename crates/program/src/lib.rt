#![tactic(auto)]
// A script from a reader, its answers to a writer; the program gives it standard input and standard output.
// A read that fails counts as the end of the input. Where a write fails, the rest of that block is lost, and the script is run to its end all the same.
ghost use Rattle.std.specs.Prelude.{◌≤◌, ◌<◌, length, take, OnOk, IfSome};
ghost use Rattle.std.specs.Io.KnownBytes.{Appends, Consumes, IsAtEnd};
ghost use Rattle.model.specs.declared.Refusal.TheVariants.{Unreadable};
ghost use Rattle.model.specs.Steps.{refusal};
ghost use Rattle.layouts.specs.Stored.{stored};
ghost use Rattle.lines.specs.Lines.{lines_of};
ghost use Rattle.print.specs.Answers.{answer_line};
ghost use Rattle.script.specs.Scripts.{lines_output, script_output, slips_output};
ghost use Rattle.script.specs.Runs.{RunReady, ScriptRun};
ghost use Rattle.program.specs.Transfers.{Transferred};

use std::io;
use std::io::{Read, Write};

// The words of a store with 2,048 records: 4, and 6 for each.
const STORE_WORDS: usize = 12292;
// The places of the answer list.
const LIST_PLACES: usize = 2048;
// The bytes that are read: one more than a script may have, so that one that is too long shows.
const INPUT_BYTES: usize = 65537;
// The bytes of a block of output: room for any line, and for many short ones.
const OUTPUT_BYTES: usize = 65536;

// How a run ended: whether all reads and all writes went well.
#[derive(Clone, Copy)]
pub struct Ended {
    pub read: io::Result<()>,
    pub write: io::Result<()>,
}

// Reads until the bytes are full, the input ends or a read fails: how many bytes were read, which stand at the front, and whether no read failed.
// By hand: `read_exact` leaves open how many bytes were read where the input is shorter.
fn read_full<R: Read>(input: &mut R, bytes: &mut [u8]) -> (usize, io::Result<()>)
    ensures within { result.0 ≤ length bytes.new }
    ensures read { Consumes (R.remaining input.old) (R.remaining input.new) (take result.0 bytes.new) }
    ensures end { OnOk result.1 (result.0 < length bytes.new → IsAtEnd (R.remaining input.new)) }
{
    let mut done = 0;
    while done < bytes.len() {
        match input.read(&mut bytes[done..]) {
            Ok(0) => return (done, Ok(())),
            Ok(count) => done += count,
            Err(error) => return (done, Err(error)),
        }
    }
    (done, Ok(()))
}

// Writes the bytes, up to the first write that fails or takes none.
// By hand: `write_all` goes on after a write that was interrupted, for ever if each one is.
fn write_full<W: Write>(output: &mut W, bytes: &[u8]) -> io::Result<()>
    ensures { OnOk result (Appends (W.contents output.old) (W.contents output.new) bytes.now) }
{
    let mut done = 0;
    while done < bytes.len() {
        match output.write(&bytes[done..]) {
            Ok(0) => return Err(io::Error::from(io::ErrorKind::WriteZero)),
            Ok(count) => done += count,
            Err(error) => return Err(error),
        }
    }
    Ok(())
}

// Runs the lines of a script and writes what they print, block by block; a block whose write fails is passed over.
#[tactic(auto, unfolding(lines::specs::Lines::lines_of, script::specs::Scripts::lines_output))]
fn run_lines<W: Write>(
    store: &mut [u32],
    list: &mut [u32],
    script: &[u8],
    output: &mut W,
) -> io::Result<()>
    requires { RunReady store.old list.old }
    ensures ran { ScriptRun store.old list.old script.now store.new list.new }
    ensures written { OnOk result (Appends (W.contents output.old) (W.contents output.new) (lines_output (stored.state_of store.old) (lines_of script.now))) }
{
    let mut out: [u8; OUTPUT_BYTES] = [0; OUTPUT_BYTES];
    let mut rest = script;
    let mut written = Ok(());
    while !rest.is_empty() {
        let block = script::run_block(store, list, rest, &mut out);
        written = written.and(write_full(output, &out[..block.length]));
        rest = &rest[block.consumed..];
    }
    written
}

// Runs a script on a fresh store with 2,048 records and an answer list of 2,048 places.
fn run_script<W: Write>(script: &[u8], output: &mut W) -> io::Result<()>
    ensures { OnOk result (Appends (W.contents output.old) (W.contents output.new) (script_output script.now)) }
{
    let mut store: [u32; STORE_WORDS] = [0; STORE_WORDS];
    let mut list: [u32; LIST_PLACES] = [0; LIST_PLACES];
    let _ = fresh::prepare(&mut store);
    run_lines(&mut store, &mut list, script, output)
}

// Refuses an input that is too long.
#[tactic(auto, using(print::proofs::Puts::front_text, script::proofs::LineRuns::refusal_length))]
fn refuse<W: Write>(output: &mut W) -> io::Result<()>
    ensures { OnOk result (Appends (W.contents output.old) (W.contents output.new) (answer_line (refusal Unreadable))) }
{
    let mut out: [u8; OUTPUT_BYTES] = [0; OUTPUT_BYTES];
    let length = script::refuse_input(&mut out);
    write_full(output, &out[..length])
}

// Runs an input as a script, or refuses it.
fn answer<W: Write>(input: &[u8], output: &mut W) -> io::Result<()>
    ensures { OnOk result (Appends (W.contents output.old) (W.contents output.new) (slips_output input.now)) }
{
    if !script::accepted(input.len()) {
        return refuse(output);
    }
    run_script(input, output)
}

// The program: reads its input, at most one byte more than a script may have, and answers it.
pub fn run<R: Read, W: Write>(input: &mut R, output: &mut W) -> Ended
    ensures prints { OnOk result.read (OnOk result.write (IfSome (R.remaining input.old) (λ bytes. Appends (W.contents output.old) (W.contents output.new) (slips_output bytes)))) }
    ensures transferred { Transferred (R.remaining input.old) (R.remaining input.new) (W.contents output.old) (W.contents output.new) result }
{
    let mut bytes: [u8; INPUT_BYTES] = [0; INPUT_BYTES];
    let (length, read) = read_full(input, &mut bytes);
    let write = answer(&bytes[..length], output);
    Ended { read, write }
}

#[cfg(test)]
mod tests {
    use super::*;

    // Gives one line, and then fails.
    #[derive(Drop)]
    struct BrokenReader {
        given: bool,
    }

    impl Read for BrokenReader {
        fn read(&mut self, buf: &mut [u8]) -> io::Result<usize> {
            if self.given || buf.len() < 6 {
                return Err(io::Error::from(io::ErrorKind::Other));
            }
            self.given = true;
            buf[..6].copy_from_slice(b"CUN 1\n");
            Ok(6)
        }
    }

    // Takes everything, and counts it.
    #[derive(Drop)]
    struct Counter {
        count: usize,
    }

    impl Write for Counter {
        fn write(&mut self, buf: &[u8]) -> io::Result<usize> {
            self.count = buf.len();
            Ok(buf.len())
        }

        fn flush(&mut self) -> io::Result<()> {
            Ok(())
        }
    }

    // Takes one byte, and then fails.
    #[derive(Drop)]
    struct BrokenWriter {
        first: Option<u8>,
    }

    impl Write for BrokenWriter {
        fn write(&mut self, buf: &[u8]) -> io::Result<usize> {
            if self.first.is_some() || buf.len() < 1 {
                return Err(io::Error::from(io::ErrorKind::Other));
            }
            self.first = Some(buf[0]);
            Ok(1)
        }

        fn flush(&mut self) -> io::Result<()> {
            Ok(())
        }
    }

    // Is interrupted at its first write, and then takes everything, and counts it.
    #[derive(Drop)]
    struct InterruptedWriter {
        interrupted: bool,
        count: usize,
    }

    impl Write for InterruptedWriter {
        fn write(&mut self, buf: &[u8]) -> io::Result<usize> {
            if !self.interrupted {
                self.interrupted = true;
                return Err(io::Error::from(io::ErrorKind::Interrupted));
            }
            self.count = self.count.saturating_add(buf.len());
            Ok(buf.len())
        }

        fn flush(&mut self) -> io::Result<()> {
            Ok(())
        }
    }

    // What was read before the failure is answered: `= 1 +1` and a line feed.
    #[test]
    fn read_fails(rt: HostRuntime) {
        let mut output = Counter { count: 0 };
        let ended = run(&mut BrokenReader { given: false }, &mut output);
        assert!(rt; ended.read.is_err());
        assert!(rt; ended.write.is_ok());
        assert_eq!(rt; output.count, 7);
    }

    // The first byte of the answer was taken.
    #[test]
    fn write_fails(rt: HostRuntime) {
        let mut output = BrokenWriter { first: None };
        let ended = run(&mut b"CUN 1\nCUN 2\n".as_slice(), &mut output);
        assert!(rt; ended.read.is_ok());
        assert!(rt; ended.write.is_err());
        assert_eq!(rt; output.first, Some(b'='));
    }

    // Each empty line is answered by `R 11` and a line feed. The block of the first 8,191 lines is given up, and that of the other 1,809 is written.
    #[test]
    fn write_interrupted(rt: HostRuntime) {
        let mut output = InterruptedWriter {
            interrupted: false,
            count: 0,
        };
        let ended = run(&mut [b'\n'; 10000].as_slice(), &mut output);
        assert!(rt; ended.read.is_ok());
        assert!(rt; ended.write.is_err());
        assert_eq!(rt; output.count, 9045);
    }
}
