//! The written-out sheets of document 01 and some that are turned away, read and printed.
#![tactic(auto)]

use entries::Sheet;
use sheet::{Outcome, SheetFault};
use std::io;

// A line for the board, and one for each row: priority, label, C, D and T in ticks.
fn print_sheet(rt: &impl Print, sheet: Sheet) -> io::Result<()> {
    println!(rt; "whole {} {} {}", sheet.cores, sheet.tick.0, sheet.count)?;
    for entry in sheet.entries.iter().take(sheet.count) {
        let row = Sheet::row_in(*entry, sheet.tick);
        println!(rt;
            "row {} {} {} {} {}",
            entry.priority, entry.label, row.c.0, row.d.0, row.t.0
        )?;
    }
    Ok(())
}

fn print_outcome(rt: &impl Print, outcome: Outcome) -> io::Result<()> {
    match outcome.verdict {
        Ok(()) => print_sheet(rt, outcome.sheet),
        Err(SheetFault { number, place }) => println!(rt; "refused {number} {place}"),
    }
}

fn main(rt: HostRuntime) -> io::Result<()> {
    let sheets: [&[u8]; 13] = [
        // The sheet of document 01; the same with the rows in another order.
        b"\x01\x02\x00\x64\x02\x00\x65\x00\x01\x00\x00\x00\xC8\x00\x00\x01\xF4\x00\x00\x01\xF4\x02\x00\x6E\x00\x0A\x00\x00\x00\xC8\x00\x00\x01\x90\x00\x00\x03\xE8\x02\x00\x66\x00\x02\x00\x00\x01\x2C\x00\x00\x03\x20\x00\x00\x03\x20\x03\x03",
        b"\x01\x02\x00\x64\x02\x00\x6E\x00\x0A\x00\x00\x00\xC8\x00\x00\x01\x90\x00\x00\x03\xE8\x02\x00\x66\x00\x02\x00\x00\x01\x2C\x00\x00\x03\x20\x00\x00\x03\x20\x02\x00\x65\x00\x01\x00\x00\x00\xC8\x00\x00\x01\xF4\x00\x00\x01\xF4\x03\x03",
        // No byte; an end record first; a kind that no record has.
        b"",
        b"\x03\x00",
        b"\x07\x00",
        // A row record that is cut short first; a second board record; a tick length of 0.
        b"\x02\x00",
        b"\x01\x02\x00\x64\x01\x02\x00\x64",
        b"\x01\x02\x00\x00",
        // A board record cut short; no end record; a wrong count; a byte after the end record.
        b"\x01\x02",
        b"\x01\x02\x00\x64",
        b"\x01\x02\x00\x64\x03\x01\x00",
        b"\x01\x02\x00\x64\x03\x00\x00",
        // A sheet with no row is read: the reader does not judge rows.
        b"\x01\x00\x00\x64\x03\x00",
    ];
    for sheet in sheets {
        print_outcome(&rt, sheet::read(sheet))?;
    }
    Ok(())
}
