//! The order sheet of document 01: its reader.
#![tactic(auto)]

ghost use Rattle.std.specs.Prelude.{◌≡◌};
ghost use Rattle.sheet.specs.Reader.{no_sheet, new_reading, after_record, refused, unread, first_sheet_of, read_of};

use entries::Sheet;
use judge::check_record;
use quantities::Micros;
use records::{Record, is_end, record_on, size_on};

mod judge;

// How far a sheet has been read: whether its board record was, and what the records so far gave.
// Kept: a flag beside a sheet, since `record_checks` tells of the checks behind 13 where no board was read too.
#[derive(Clone, Copy, Debug, PartialEq, Eq)]
pub struct Reading {
    pub begun: bool,
    pub sheet: Sheet,
}

// What is wrong at a record or in a whole sheet: document 01's number with its byte place.
// Kept: a number, since FaultAt speaks of it and edit first_sheet_refused_by_its_place exchanges it with the place.
#[derive(Clone, Copy, Debug, PartialEq, Eq, PartialOrd, Ord, Hash)]
pub struct SheetFault {
    pub number: u32,
    pub place: usize,
}

// The first sheet that stands on some bytes and the place behind its end record, or a refusal with the empty sheet.
// Kept: sheet and end beside the verdict, by edits refusal_with_an_end and refused_first_sheet_has_an_end.
#[derive(Clone, Copy, Debug, PartialEq, Eq)]
pub struct FirstSheet {
    pub verdict: Result<(), SheetFault>,
    pub sheet: Sheet,
    pub end: usize,
}

// The reader's answer. A refused sheet yields no table: its sheet is the empty one.
// Kept: a sheet beside the verdict: `NoTableRefused` and edit refused_sheet_with_rows say which a refusal has.
#[derive(Clone, Copy, Debug, PartialEq, Eq)]
pub struct Outcome {
    pub verdict: Result<(), SheetFault>,
    pub sheet: Sheet,
}

#[tactic(auto, unfolding(crate::specs::Reader::no_sheet))]
fn no_sheet() -> Sheet
    ensures { result ≡ no_sheet }
{
    Sheet::of_board(0, Micros(0))
}

#[tactic(auto, unfolding(crate::specs::Reader::new_reading))]
fn new_reading() -> Reading
    ensures { result ≡ new_reading }
{
    Reading {
        begun: false,
        sheet: no_sheet(),
    }
}

#[tactic(auto, unfolding(crate::specs::Reader::refused))]
fn refuse(fault: SheetFault) -> Outcome
    ensures { result ≡ refused fault.number fault.place }
{
    Outcome {
        verdict: Err(fault),
        sheet: no_sheet(),
    }
}

// The reading after a record that nothing is wrong with.
#[tactic(auto, unfolding(crate::specs::Reader::after_record))]
fn after_record(reading: Reading, found: Record) -> Reading
    ensures { result ≡ after_record reading found }
{
    match found {
        Record::Board(cores, tick) => Reading {
            begun: true,
            sheet: Sheet::of_board(cores, tick),
        },
        Record::Row(fields) => Reading {
            begun: reading.begun,
            sheet: reading.sheet.with_entry(fields),
        },
        Record::Missing | Record::Unknown | Record::Cut(_) | Record::End(_) => reading,
    }
}

#[tactic(auto, unfolding(crate::specs::Reader::unread))]
fn no_first(fault: SheetFault) -> FirstSheet
    ensures { result ≡ unread fault.number fault.place }
{
    FirstSheet {
        verdict: Err(fault),
        sheet: no_sheet(),
        end: 0,
    }
}

// The first sheet that stands on some bytes, and where it ends; what stands behind its end record does not count.
#[tactic(auto, using(crate::proofs::Checks::not_refused, crate::proofs::Reader::reads_new, crate::proofs::Turns::turn_goes_on))]
pub fn read_first(bytes: &[u8]) -> FirstSheet
    ensures { result ≡ first_sheet_of bytes.now }
{
    let mut reading = new_reading();
    let mut at = 0;
    // Kept: a loop, since each record says itself where the next one begins.
    loop {
        let part = &bytes[at..];
        let found = record_on(part);
        if let Err(fault) = check_record(reading, found, at) {
            return no_first(fault);
        }
        let next = at + size_on(part);
        if is_end(found) {
            return FirstSheet {
                verdict: Ok(()),
                sheet: reading.sheet,
                end: next,
            };
        }
        reading = after_record(reading, found);
        at = next;
    }
}

// The whole sheet's answer: the board with its rows in rising priority, or a refusal's number and place.
#[tactic(auto, using(crate::proofs::Checks::not_refused, crate::proofs::Reader::answer_refused, crate::proofs::Reader::answer_more, crate::proofs::Reader::answer_whole), unfolding(crate::specs::Reader::whole))]
pub fn read(sheet: &[u8]) -> Outcome
    ensures { result ≡ read_of sheet.now }
{
    let first = read_first(sheet);
    if let Err(fault) = first.verdict {
        return refuse(fault);
    }
    if first.end < sheet.len() {
        return refuse(SheetFault {
            number: 18,
            place: first.end,
        });
    }
    Outcome {
        verdict: Ok(()),
        sheet: first.sheet,
    }
}
