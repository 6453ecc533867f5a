//! A page put where a whole one has room, and where its text alone has. A test that fails answers so: none may abort.
ghost use Rattle.std.specs.Prelude.{◌+◌, ◌≤◌, length};
ghost use Rattle.printing.specs.Buffer.{Puts};

use super::*;

const MISPLACED: &str = "the text doesn't stand in the buffer as it was put";

// Of the page nothing is known here: its caller asks for the room of a whole one.
fn put_any<const ROOM: usize>(page: &Page<ROOM>, out: &mut [u8], at: usize) -> usize
    requires { at + ROOM ≤ length out.old }
    ensures puts { Puts out.old at page.now out.new result }
    ensures short { length page.now ≤ ROOM }
{
    page.put(out, at)
}

#[test]
fn room_for_a_whole_page() -> Result<(), &'static str> {
    let mut page = Page::<24>::default();
    page.worded(b"row ", 12);
    let mut out = *b"..........................";
    let next = put_any(&page, &mut out, 2);
    if next != 8 || out != *b"..row 12.................." {
        return Err(MISPLACED);
    }
    Ok(())
}

#[test]
fn room_for_the_text_alone() -> Result<(), &'static str> {
    let mut page = Page::<24>::default();
    page.word(b"all shown");
    let mut out = *b"...........";
    let next = page.put(&mut out, 2);
    if next != 11 || out != *b"..all shown" {
        return Err(MISPLACED);
    }
    Ok(())
}
