//! The lines of the program's text, each put at the end of a page.
#![tactic(auto)]

ghost use Rattle.std.specs.Prelude.{◌≡◌, ◌+◌, ◌*◌, ◌≤◌, ◌++◌, length};
ghost use Rattle.lines.specs.Lines.{row_lines, line_text, line_room};
ghost use Rattle.quantities.specs.Limits.{row_capacity};
ghost use Rattle.quantities.specs.Lengths.{numbers};

use entries::Sheet;
use printing::Page;
use quantities::{Micros, Ticks};

/// A line of the text.
#[derive(Clone, Copy, Debug, PartialEq, Eq)]
pub enum Line {
    /// The first line: cores, tick length, number of rows.
    First {
        cores: u32,
        tick: Micros,
        rows: usize,
    },
    /// A row line: place, label, bound, D.
    Row {
        place: usize,
        label: u32,
        bound: Ticks,
        deadline: Ticks,
    },
    /// The last line where every row has its bound.
    Shown,
    /// The last line where the row at a place, with this label, has none.
    NotShown {
        place: usize,
        label: u32,
    },
    /// The one line of a sheet or a list that is turned away.
    // Kept: document 01's number, which the line prints, as `Fault` and `SheetFault` have it.
    Refused {
        number: u32,
        place: usize,
    },
}

impl Line {
    /// Puts the line at the end of a page.
    // Kept: no `Display`, since `print_answer` can't fail and a `write!` promises nothing where it answers `Err`.
    // Kept: a usize goes to u64 by a cast, since there is no `From` for it.
    #[tactic(auto, unfolding(crate::specs::Lines::line_text, crate::specs::Lines::first_line, crate::specs::Lines::row_line, crate::specs::Lines::shown_line, crate::specs::Lines::not_shown_line, crate::specs::Lines::refused_line))]
    pub fn print<const ROOM: usize>(self, page: &mut Page<ROOM>)
        requires { length page.old + line_room ≤ ROOM }
        ensures printed { page.new ≡ page.old ++ line_text self }
        ensures short { length (line_text self) ≤ line_room }
    {
        match self {
            Line::First { cores, tick, rows } => {
                page.worded(b"cores ", u64::from(cores));
                page.worded(b" tick ", tick.0);
                page.worded(b" rows ", rows as u64);
                page.word(b"\n");
            }
            Line::Row {
                place,
                label,
                bound,
                deadline,
            } => {
                page.number(place as u64);
                page.worded(b" ", u64::from(label));
                page.worded(b" ", bound.0);
                page.worded(b" ", deadline.0);
                page.word(b"\n");
            }
            Line::Shown => page.word(b"all shown\n"),
            Line::NotShown { place, label } => {
                page.worded(b"not shown ", place as u64);
                page.worded(b" ", u64::from(label));
                page.word(b"\n");
            }
            Line::Refused { number, place } => {
                page.worded(b"refused ", u64::from(number));
                page.worded(b" ", place as u64);
                page.word(b"\n");
            }
        }
    }
}

/// Puts the lines of the first rows of a sheet, one for each of these bounds, at the end of a page.
#[tactic(auto, using(crate::proofs::Lines::row_steps), unfolding(crate::specs::Lines::line_text, crate::specs::Lines::row_lines))]
pub fn print_rows<const ROOM: usize>(page: &mut Page<ROOM>, sheet: Sheet, bounds: &[Ticks])
    requires rows { length bounds.now ≤ row_capacity }
    requires room { length page.old + length bounds.now * line_room ≤ ROOM }
    ensures printed { page.new ≡ page.old
        ++ row_lines sheet.tick sheet.entries (numbers bounds.now) (length bounds.now) }
    ensures short { length (row_lines sheet.tick sheet.entries (numbers bounds.now) (length bounds.now))
        ≤ length bounds.now * line_room }
{
    for (i, bound) in bounds.iter().enumerate() {
        let entry = sheet.entries[i];
        let row = Sheet::row_in(entry, sheet.tick);
        Line::Row {
            place: i + 1,
            label: entry.label,
            bound: *bound,
            deadline: row.d,
        }
        .print(page);
    }
}
