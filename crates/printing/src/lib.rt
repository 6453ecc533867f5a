//! A page of text that grows at its end by words and decimal numbers, and is put into a lent buffer.
#![tactic(auto)]

ghost use Rattle.std.specs.Prelude.{◌≡◌, ◌+◌, ◌≤◌, ◌++◌, min, length};
ghost use Rattle.printing.specs.Decimal.{decimal, number_room};
ghost use Rattle.printing.specs.Buffer.{Puts};

use arrayvec::ArrayVec;
use itoa::Buffer;
use std::marker::Model;

#[cfg(test)]
mod tests;

/// A text of at most `ROOM` bytes. It grows without an allocator, and a call that has room can't fail.
#[derive(Clone, Debug, Default, Drop)]
pub struct Page<const ROOM: usize> {
    text: ArrayVec<u8, ROOM>,
}

impl<const ROOM: usize> Model for Page<ROOM> {
    ghost use Rattle.std.specs.Prelude.{ℕ, List};

    ghost Value = { List ℕ };

    ghost view = { λ page. page.text.items };
}

impl<const ROOM: usize> Page<ROOM> {
    /// A word.
    pub fn word(&mut self, word: &[u8])
        requires { length self.old + length word.now ≤ ROOM }
        ensures { self.new ≡ self.old ++ word.now }
    {
        self.text.try_extend_from_slice(word).unwrap();
    }

    /// A number in decimal, where there is room for any.
    #[tactic(auto, using(crate::proofs::Decimal::decimal_as_std, crate::proofs::Decimal::decimal_room))]
    pub fn number(&mut self, number: u64)
        requires { length self.old + number_room ≤ ROOM }
        ensures grows { self.new ≡ self.old ++ decimal number }
        ensures short { length (decimal number) ≤ number_room }
    {
        self.word(Buffer::new().format(number).as_bytes());
    }

    /// A word, and a number in decimal after it.
    pub fn worded(&mut self, word: &[u8], number: u64)
        requires { length self.old + length word.now + number_room ≤ ROOM }
        ensures grows { self.new ≡ self.old ++ word.now ++ decimal number }
        ensures short { length (decimal number) ≤ number_room }
    {
        self.word(word);
        self.number(number);
    }

    /// Puts the text into a lent buffer from a place on, and answers the next place.
    // Room for the text is enough, and so is room for a whole page, where a caller was not told that the text fits one.
    // Kept: the place beside the buffer, by the edit lent_bytes_moved, which tells a lie only of a place behind 0.
    pub fn put(&self, out: &mut [u8], at: usize) -> usize
        requires { at + min (length self.now) ROOM ≤ length out.old }
        ensures puts { Puts out.old at self.now out.new result }
        ensures short { length self.now ≤ ROOM }
    {
        let text = self.text.as_slice();
        let next = at + text.len();
        out[at..next].copy_from_slice(text);
        next
    }
}
