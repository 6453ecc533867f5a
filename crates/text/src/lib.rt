//! The text of a sheet's answer, as the program prints it: document 01, "One sheet through the program".
#![tactic(auto)]

ghost use Rattle.std.specs.Prelude.{◌≡◌, ◌≤◌, ◌++◌, [], length, take};
ghost use Rattle.quantities.specs.Limits.{row_capacity};
ghost use Rattle.quantities.specs.Paper.{fault_paper};
ghost use Rattle.quantities.specs.Lengths.{numbers};
ghost use Rattle.lines.specs.Lines.{line_text};
ghost use Rattle.text.specs.Text.{lines_up_to, paper_line, sheet_text, text_of};
ghost use Rattle.text.specs.Printed.{text_room, Printed};

use analysis::{Analysis, analyse};
use entries::Sheet;
use lines::{Line, print_rows};
use printing::Page;
use quantities::{Fault, Table, Ticks};
use sheet::SheetFault;
use windows::Answer;

/// Room enough for every text: 34 lines, none longer than 84 bytes.
pub const TEXT_ROOM: usize = 2856;

// The line of a fault: of the whole list at place 0, else of the row at its place.
#[tactic(auto, unfolding(lines::specs::Lines::line_text, quantities::specs::Paper::fault_paper))]
fn fault_line(fault: Fault) -> Line
    ensures { line_text result ≡ paper_line (fault_paper fault) }
{
    match fault {
        Fault::WholeList(number) => Line::Refused { number, place: 0 },
        Fault::OneRow(number, place) => Line::Refused { number, place },
    }
}

// Prints the first line of a sheet with this many rows, the lines of the first `count` of them, and a last line.
// Kept: three functions ask for a blank page, whose room the text is known to fit; no type of a page says blank.
// Kept: an array with a count, since slices of the bounds at its two calls left `slice_bounds` open.
#[tactic(auto, unfolding(lines::specs::Lines::line_text))]
fn print_bounds(
    page: &mut Page<TEXT_ROOM>,
    sheet: Sheet,
    rows: usize,
    bounds: [Ticks; Table::ROW_CAPACITY],
    count: usize,
    last: Line,
)
    requires blank { page.old ≡ [] }
    requires few { count ≤ row_capacity }
    ensures printed { page.new ≡ lines_up_to sheet rows (numbers (take count bounds)) count ++ line_text last }
    ensures short { length page.new ≤ text_room }
{
    Line::First {
        cores: sheet.cores,
        tick: sheet.tick,
        rows,
    }
    .print(page);
    print_rows(page, sheet, &bounds[..count]);
    last.print(page);
}

// Prints the text of a sheet that was read without fault.
fn print_sheet(page: &mut Page<TEXT_ROOM>, sheet: Sheet)
    requires blank { page.old ≡ [] }
    ensures printed { page.new ≡ sheet_text sheet }
    ensures short { length page.new ≤ text_room }
{
    let table = sheet.table();
    let rows = table.count;
    let Analysis { answer, bounds } = analyse(sheet.cores, table);
    match answer {
        Answer::Shown => print_bounds(page, sheet, rows, bounds, rows, Line::Shown),
        Answer::NotShown(_, place) => {
            let before = place - 1;
            let label = sheet.entries[before].label;
            let last = Line::NotShown { place, label };
            print_bounds(page, sheet, rows, bounds, before, last);
        }
        Answer::Refused(fault) => fault_line(fault).print(page),
    }
}

// Prints the text of a sheet's answer on the one page that there is: a page handed on by value is copied each time.
#[tactic(auto, using(crate::proofs::Text::text_unread, crate::proofs::Text::text_read), unfolding(lines::specs::Lines::line_text))]
fn print_text(page: &mut Page<TEXT_ROOM>, sheet: &[u8])
    requires blank { page.old ≡ [] }
    ensures printed { page.new ≡ text_of sheet.now }
    ensures short { length page.new ≤ text_room }
{
    let outcome = sheet::read(sheet);
    match outcome.verdict {
        Ok(()) => print_sheet(page, outcome.sheet),
        Err(SheetFault { number, place }) => Line::Refused { number, place }.print(page),
    }
}

/// The text of a sheet's answer at the front of a lent buffer, and how many bytes it has. A buffer shorter
/// than TEXT_ROOM is left as it is, and none of its bytes is the text.
pub fn print_answer(sheet: &[u8], out: &mut [u8]) -> usize
    ensures { Printed sheet.now out.old out.new result }
{
    // Kept: a count of 0, by this function's signature and the edit short_buffer_counts_as_text.
    if out.len() < TEXT_ROOM {
        return 0;
    }
    let mut page = Page::default();
    print_text(&mut page, sheet);
    page.put(out, 0)
}
