//! An input read into a lent room, however the bytes arrive, and the frames of the programs that are compared.
#![tactic(auto)]

ghost use Rattle.std.specs.Prelude.{◌≡◌, ℕ, ◌<◌, ◌^◌, List, length, take, IfErr, IfSome, IsNone, OnOk};
ghost use Rattle.std.specs.Int.{w16, to_be_bytes};
ghost use Rattle.std.specs.Io.KnownBytes.{Appends, Consumes};
ghost use Rattle.streams.specs.Counts.{IsPrefixLen};
ghost use Rattle.streams.specs.Frames.{frame_of, EndsInside, EndsAfter, FailsAt};

use std::io;
use std::io::{Read, Write};

// The room for the bytes of a frame, whose number is below this.
const FRAME_ROOM: usize = 65536;

// Reads until the room is full, the input is at its end or a read fails, and answers how many bytes it put at the
// front of the room. A read that a signal interrupts counts as one that failed.
pub fn read_full<R: Read>(input: &mut R, room: &mut [u8]) -> usize
    ensures within { IsPrefixLen result room.new }
    ensures read { Consumes (R.remaining input.old) (R.remaining input.new) (take result room.new) }
{
    let mut done: usize = 0;
    // Kept: a while, since a read says itself how many bytes came.
    while done < room.len() {
        let more = input.read(&mut room[done..]).unwrap_or(0);
        if more == 0 {
            break;
        }
        done += more;
    }
    done
}

// The number of bytes that a frame's head names.
fn size_in(head: [u8; 2]) -> usize
    ensures short { result < 2 ^ 16 }
    ensures named { to_be_bytes w16 result ≡ head }
{
    usize::from(u16::from_be_bytes(head))
}

// Reads a frame's bytes to the front of the room, and answers how many they are: none where the input ends before the
// frame does.
fn read_frame<R: Read>(input: &mut R, room: &mut [u8; FRAME_ROOM]) -> Option<usize>
    ensures short { IfSome result (λ size. size < 2 ^ 16) }
    ensures within { IfSome result (λ size. IsPrefixLen size room.new) }
    ensures read { IfSome result (λ size.
        Consumes (R.remaining input.old) (R.remaining input.new) (frame_of (take size room.new))) }
    ensures cut { IsNone result → EndsInside (R.remaining input.old) (R.remaining input.new) }
{
    let mut head = [0u8; 2];
    if read_full(input, &mut head) < head.len() {
        return None;
    }
    let size = size_in(head);
    if read_full(input, &mut room[..size]) < size {
        return None;
    }
    Some(size)
}

// Hands each frame of the input to `answer`, until the input ends or an answer fails: with the error of that answer.
pub fn answer_frames<R: Read, F: FnMut(&[u8]) -> io::Result<()>>(
    input: &mut R,
    mut answer: F,
) -> io::Result<()>
    requires { F.IsAlwaysCallable answer }
    ensures ends { OnOk result (EndsAfter F.FnMut (R.remaining input.old) (R.remaining input.new) answer) }
    ensures fails { IfErr result (FailsAt F.FnMut (R.remaining input.old) (R.remaining input.new) answer) }
{
    let mut room = [0u8; FRAME_ROOM];
    // A proved loop has to end, and nothing says that the input does: so it counts its turns, to a number that no run
    // comes to.
    for _ in 0..u64::MAX {
        let Some(size) = read_frame(input, &mut room) else {
            return Ok(());
        };
        answer(&room[..size])?;
    }
    Ok(())
}

// The room for a frame of at most three bytes, which goes out in one write with its length; a longer one takes two.
const SHORT_ROOM: usize = 5;

// Writes the frame of these bytes: a short one whole or not at all, where the output takes it so.
pub fn write_frame<W: Write>(output: &mut W, bytes: &[u8]) -> io::Result<()>
    requires { length bytes.now < 2 ^ 16 }
    ensures { OnOk result (Appends (W.contents output.old) (W.contents output.new) (frame_of bytes.now)) }
{
    // Kept: a cast, since `try_from` would add an error that the caller rules out.
    let size = bytes.len() as u16;
    let head = size.to_be_bytes();
    let end = head.len() + bytes.len();
    if end <= SHORT_ROOM {
        let mut frame = [0u8; SHORT_ROOM];
        frame[..2].copy_from_slice(&head);
        frame[2..end].copy_from_slice(bytes);
        return output.write_all(&frame[..end]);
    }
    output.write_all(&head)?;
    output.write_all(bytes)
}
