//! The analysis on the caller's own list of rows, which is only read, with the bounds written into a lent list.
#![tactic(auto)]

ghost use Rattle.std.specs.Prelude.{◌≡◌, ◌≤◌, [], length};
ghost use Rattle.quantities.specs.Limits.{row_capacity};
ghost use Rattle.quantities.specs.Table.{rows_of};
ghost use Rattle.quantities.specs.Lengths.{numbers};
ghost use Rattle.windows.specs.Answer.{judged_into};
ghost use Rattle.windows.specs.declared.Answer.TheVariants.{Refused};
ghost use Rattle.lentrows.specs.Loaded.{loaded_table};
ghost use Rattle.lentrows.specs.Lent.{LentAnalysis, front_replaced, shown_by, told_of};

use analysis::Analysis;
use quantities::{Fault, Row, Table, Ticks};
use windows::Answer;

// What the caller is told: the answer, the bounds, and how many of these are to be written.
// Kept: bounds and how many beside the answer, since ToldAnswer says of a fault too that no bound is to be written.
#[derive(Clone, Copy, Debug, PartialEq, Eq)]
pub struct Told {
    pub answer: Answer,
    pub bounds: [Ticks; Table::ROW_CAPACITY],
    pub shown: usize,
}

// Kept: beside exports' own, whose rows are triples.
// The table of the rows of a lent list.
#[tactic(auto, unfolding(crate::specs::Loaded::loaded))]
fn load(rows: &[Row]) -> Table
    ensures { result ≡ loaded_table rows.now }
{
    let mut table = Table::empty();
    for row in rows {
        table.push(*row);
    }
    table
}

// How many rows of this many have a bound where this is the answer.
#[tactic(auto, unfolding(crate::specs::Lent::shown_by))]
fn shown_by(answer: Answer, count: usize) -> usize
    ensures { result ≡ shown_by answer count }
{
    match answer {
        Answer::Shown => count,
        Answer::NotShown(_, place) => place.saturating_sub(1),
        Answer::Refused(_) => 0,
    }
}

// Told with no bound: a fault.
#[tactic(auto, unfolding(crate::specs::Lent::told_of, quantities::specs::Lengths::in_array))]
fn refused(fault: Fault) -> Told
    ensures { result ≡ told_of (record { answer = Refused fault; bounds = [] }) }
{
    Told {
        answer: Answer::Refused(fault),
        bounds: [Ticks(0); Table::ROW_CAPACITY],
        shown: 0,
    }
}

// What is told of a table where the bounds list has this many entries: checks 1 to 6, then 7, then the search.
pub fn answer_for(cores: u32, table: Table, entries: usize) -> Told
    ensures { result ≡ told_of (judged_into cores entries (rows_of table)) }
{
    if let Err(fault) = table.check(cores) {
        return refused(fault);
    }
    if entries < table.count {
        return refused(Fault::WholeList(7));
    }
    let Analysis { answer, bounds } = analysis::analyse(cores, table);
    let shown = shown_by(answer, table.count);
    Told {
        answer,
        bounds,
        shown,
    }
}

// Kept: beside exports' own, which writes numbers.
// Writes the bounds told into the first entries of a lent list.
fn write_bounds(told: Told, bounds: &mut [Ticks])
    requires { (told.shown ≤ row_capacity) × (told.shown ≤ length bounds.old) }
    ensures { bounds.new ≡ front_replaced told.shown told.bounds bounds.old }
{
    bounds[..told.shown].copy_from_slice(&told.bounds[..told.shown]);
}

// The answer to the caller's list of rows, which is only read, with its bounds in the first entries of a lent list.
pub fn analyse_list(cores: u32, rows: &[Row], bounds: &mut [Ticks]) -> Answer
    ensures { LentAnalysis (judged_into cores (length bounds.old) rows.now)
        (numbers bounds.old) (numbers bounds.new) result }
{
    let table = load(rows);
    let told = answer_for(cores, table, bounds.len());
    write_bounds(told, bounds);
    told.answer
}
