//! The checks of a record, in the order of document 01.
ghost use Rattle.std.specs.Prelude.{◌≡◌, [], ◌∷◌};
ghost use Rattle.records.specs.Records.{end_length};
ghost use Rattle.sheet.specs.Checks.{place_check, board_checks, row_record_checks, end_checks};
ghost use Rattle.sheet.specs.Checks.{own_checks, verdict_of};

use crate::{Reading, SheetFault};
use entries::Sheet;
use quantities::{Micros, Table};
use records::{BOARD_KIND, END_KIND, ROW_KIND, Record};

const TOP_PRIORITY: u32 = 999;

// A record of this kind stands where it must not: the first one that is no board, or a later board.
// Kept: the kind's byte, since that of a record cut short may be any.
#[tactic(auto, unfolding(crate::specs::Checks::misplaced, crate::specs::Checks::verdict_of, laws::specs::Checks::first_failing))]
fn check_place(reading: Reading, kind: u8, place: usize) -> Result<(), SheetFault>
    ensures { result ≡ verdict_of (place_check place reading kind ∷ []) }
{
    if reading.begun == (kind == BOARD_KIND) {
        return Err(SheetFault { number: 13, place });
    }
    Ok(())
}

#[tactic(auto, unfolding(crate::specs::Checks::board_checks, crate::specs::Checks::verdict_of, laws::specs::Checks::first_failing))]
fn check_board(tick: Micros, place: usize) -> Result<(), SheetFault>
    ensures { result ≡ verdict_of (board_checks place tick) }
{
    if tick.0 == 0 {
        return Err(SheetFault { number: 19, place });
    }
    Ok(())
}

#[tactic(auto, unfolding(crate::specs::Checks::row_record_checks, crate::specs::Checks::verdict_of, laws::specs::Checks::first_failing))]
fn check_row(sheet: Sheet, priority: u32, place: usize) -> Result<(), SheetFault>
    ensures { result ≡ verdict_of (row_record_checks place sheet priority) }
{
    if Table::ROW_CAPACITY <= sheet.count {
        return Err(SheetFault { number: 14, place });
    }
    if priority == 0 || TOP_PRIORITY < priority {
        return Err(SheetFault { number: 16, place });
    }
    if sheet.is_used(priority) {
        return Err(SheetFault { number: 15, place });
    }
    Ok(())
}

// What stands behind the end record does not count here.
#[tactic(auto, unfolding(crate::specs::Checks::end_checks, crate::specs::Checks::verdict_of, laws::specs::Checks::first_failing))]
fn check_end(sheet: Sheet, count: usize, place: usize) -> Result<(), SheetFault>
    ensures { result ≡ verdict_of (end_checks place end_length sheet count) }
{
    if count != sheet.count {
        return Err(SheetFault { number: 17, place });
    }
    Ok(())
}

// The checks of the record found at a place, by itself.
#[tactic(auto, using(crate::proofs::Checks::verdict_stops, crate::proofs::Checks::verdict_goes_on), unfolding(crate::specs::Checks::record_checks, crate::specs::Checks::verdict_of, laws::specs::Checks::first_failing))]
pub fn check_record(reading: Reading, found: Record, place: usize) -> Result<(), SheetFault>
    ensures { result ≡ verdict_of (own_checks place reading found) }
{
    match found {
        Record::Missing => Err(SheetFault { number: 11, place }),
        Record::Unknown => Err(SheetFault { number: 12, place }),
        Record::Cut(kind) => {
            check_place(reading, kind, place)?;
            Err(SheetFault { number: 11, place })
        }
        Record::Board(_, tick) => {
            check_place(reading, BOARD_KIND, place)?;
            check_board(tick, place)
        }
        Record::Row(fields) => {
            check_place(reading, ROW_KIND, place)?;
            check_row(reading.sheet, fields.priority, place)
        }
        Record::End(count) => {
            check_place(reading, END_KIND, place)?;
            check_end(reading.sheet, count, place)
        }
    }
}
