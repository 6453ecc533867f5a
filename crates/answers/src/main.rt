// Reads many sheets from standard input in frames and writes each one's answer in a frame, for a comparison with another
// program. It ends with the input.
#![tactic(auto)]

use std::io;
use std::io::Stdout;
use streams::{answer_frames, write_frame};

// A sheet's bytes past these do not count.
const SHEET_ROOM: usize = 1024;

// The room for the text of an answer.
const ANSWER_ROOM: usize = 4096;

fn write_answer(output: &mut Stdout, sheet: &[u8]) -> io::Result<()> {
    let counted = &sheet[..sheet.len().min(SHEET_ROOM)];
    let mut out = [0u8; ANSWER_ROOM];
    let count = text::print_answer(counted, &mut out);
    write_frame(output, &out[..count])
}

// Where a write fails there is nobody to tell: the program ends as it does with its input.
fn main(rt: HostRuntime) {
    let mut output = rt.stdout();
    let _ = answer_frames(&mut rt.stdin(), |sheet| write_answer(&mut output, sheet));
}
