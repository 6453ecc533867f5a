// Reads one sheet from standard input and prints its answer: document 01, "One sheet through the program".
#![tactic(auto)]

ghost use Rattle.std.specs.Prelude.{◌≡◌, ◌≤◌, length, take};
ghost use Rattle.streams.specs.Counts.{IsPrefixLen};
ghost use Rattle.text.specs.Text.{text_of};
ghost use Rattle.text.specs.Printed.{text_room};
ghost use Rattle.dipperslate.specs.Reading.{input_room, Within};

use std::io;
use std::io::{Read, Stderr, Stdin, Stdout};

// So many bytes of standard input are read, and no more.
const INPUT_ROOM: usize = 1024;

// The room for the text of the answer.
const ANSWER_ROOM: usize = 4096;

// The room for the input.
fn room() -> [u8; INPUT_ROOM]
    ensures { length result ≡ input_room }
{
    [0u8; INPUT_ROOM]
}

// Says on the error stream what failed, and the system's words for it; where that fails too, nothing can be said.
fn tell(errors: Stderr, what: &str, why: io::Error) {
    let _ = eprintln!(errors; "{what}: {why}");
}

// Reads until the input is full or at its end, however the bytes arrive, and answers how many there are.
// Kept: a loop beside streams' `read_full`, which stops at a failed read as at the end; edit reads_on_at_the_end.
fn read_input(mut from: Stdin, input: &mut [u8]) -> io::Result<usize>
    requires { length input.old ≡ input_room }
    ensures { Within result input.new }
{
    let mut n: usize = 0;
    while n < input.len() {
        let more = from.read(&mut input[n..])?;
        if more == 0 {
            break;
        }
        n += more;
    }
    Ok(n)
}

// Puts the text of a sheet's answer at the front of a buffer that has room for it, and answers how many bytes it has.
fn put_answer(sheet: &[u8], out: &mut [u8]) -> usize
    requires { text_room ≤ length out.old }
    ensures { IsPrefixLen result out.new × (take result out.new ≡ text_of sheet.now) }
{
    text::print_answer(sheet, out)
}

// Prints the answer to a sheet.
fn print(output: Stdout, sheet: &[u8]) -> io::Result<()> {
    let mut out = [0u8; ANSWER_ROOM];
    let count = put_answer(sheet, &mut out);
    output.write_all(&out[..count])
}

// Where a read fails, the error stream says so and no answer is printed; a write that fails is told too.
fn main(rt: HostRuntime) {
    let mut input = room();
    match read_input(rt.stdin(), &mut input) {
        Ok(n) => {
            if let Err(why) = print(rt.stdout(), &input[..n]) {
                tell(rt.stderr(), "standard output", why);
            }
        }
        Err(why) => tell(rt.stderr(), "standard input", why),
    }
}
