//! The analysis for callers in C: rows as triples of numbers, bounds into a lent list, the answer as one number. The crate
//! exports_c gives it the symbol and the call of C.
#![tactic(auto)]

ghost use Rattle.std.specs.Prelude.{◌≡◌, ◌≤◌, ◌<◌, length};
ghost use Rattle.windows.specs.Answer.{judged_into, answer_paper};
ghost use Rattle.quantities.specs.Limits.{row_capacity};
ghost use Rattle.quantities.specs.Lengths.{numbers};
ghost use Rattle.lentrows.specs.Loaded.{loaded_table};
ghost use Rattle.lentrows.specs.Lent.{front_replaced};
ghost use Rattle.exports.specs.Exported.{rows_from, place_limit, coded, code_of, FitsCode, Exported};

use lentrows::Told;
use quantities::{Fault, Row, Table, Ticks};
use windows::Answer;

// One more than the largest place that a code has room for.
const PLACE_LIMIT: u64 = 4_294_967_296;

// The table of a list of triples: C, D and T of each row.
// Kept: beside lentrows' own, since C's rows are triples; one for both would need a conversion more.
#[tactic(auto, unfolding(lentrows::specs::Loaded::loaded))]
fn load(rows: &[[u64; 3]]) -> Table
    ensures { result ≡ loaded_table (rows_from rows.now) }
{
    let mut table = Table::empty();
    for triple in rows {
        table.push(Row {
            c: Ticks(triple[0]),
            d: Ticks(triple[1]),
            t: Ticks(triple[2]),
        });
    }
    table
}

// Kept: one number for all answers, by the C interface.
// Kept: a usize goes to u64 by a cast, since there is no `From` for it.
// Number and place of document 01 as one number.
fn code(number: u32, place: usize) -> u64
    requires { place < place_limit }
    ensures { result ≡ coded number place }
{
    u64::from(number) * PLACE_LIMIT + (place as u64)
}

// Number and place of an answer as one number; 0 where every row is shown.
fn code_of(answer: Answer) -> u64
    requires { FitsCode answer }
    ensures { result ≡ code_of (answer_paper answer) }
{
    match answer {
        Answer::Shown => 0,
        Answer::NotShown(number, place) => code(number, place),
        Answer::Refused(fault) => match fault {
            Fault::WholeList(number) => code(number, 0),
            Fault::OneRow(number, place) => code(number, place),
        },
    }
}

// Kept: beside lentrows' own, which copies lengths as they stand, since C is lent numbers.
// Writes the bounds told, as numbers of ticks, into the first entries of a lent list.
fn write_bounds(told: Told, bounds: &mut [u64])
    requires { (told.shown ≤ row_capacity) × (told.shown ≤ length bounds.old) }
    ensures { bounds.new ≡ front_replaced told.shown (numbers told.bounds) bounds.old }
{
    for (i, bound) in told.bounds[..told.shown].iter().enumerate() {
        bounds[i] = bound.0;
    }
}

// The answer to a list of rows on a board with this many cores, with the bounds in the first entries of the lent list.
pub fn dipperslate_analyse(cores: u32, rows: &[[u64; 3]], bounds: &mut [u64]) -> u64
    ensures { Exported (judged_into cores (length bounds.old) (rows_from rows.now))
        bounds.old bounds.new result }
{
    let table = load(rows);
    let told = lentrows::answer_for(cores, table, bounds.len());
    write_bounds(told, bounds);
    code_of(told.answer)
}
