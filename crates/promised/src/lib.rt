//! Each public function, called with nothing added: the contracts here are the promises' own words, so that a
//! contract below cannot change together with its code and leave the promises behind.
#![tactic(auto)]

ghost use Rattle.std.specs.Prelude.{ltb, ◌≡◌};
ghost use Rattle.exports.specs.Exported.{rows_from};
ghost use Rattle.promised.specs.Promised.{SheetAnswer, FirstSheetAnswer, TextAnswer};
ghost use Rattle.promised.specs.Promised.{AnalysisAnswer, TableAnswer};
ghost use Rattle.promised.specs.Promised.{NoRows, OneRowMore, OpeningAnswer, ReleaseAnswer};
ghost use Rattle.promised.specs.Promised.{BrokenAnswer, TickAnswer, RequestAnswer, OutcomeBy, number_is, place_is};
ghost use Rattle.promised.specs.Promised.{ReplayAnswer, AnswerForC, ToldAnswer};
ghost use Rattle.promised.specs.Promised.{KindAnswer, RecordAnswer, size_is, EndAnswer, RowsOfEntries, RowAnswer};
ghost use Rattle.promised.specs.Promised.{NoEntries, UsedAnswer, EntryAnswer};
ghost use Rattle.rowpages.specs.Windows.{interferes};
ghost use Rattle.sheetpages.specs.Sheets.{blank_entry};
ghost use Rattle.benchpages.specs.Calls.{release_order, tick_order};

use analysis::Analysis;
use bench::{Bench, Opening, Refusal, Released, Request, Ticked};
use entries::Sheet;
use lentrows::Told;
use quantities::{Fault, Instant, Micros, Row, Table, Ticks};
use records::{Kind, Record, RowFields, UnknownKind};
use replay::Unanswered;
use sheet::{FirstSheet, Outcome};

#[tactic(auto, using(crate::proofs::Promised::sheet_answer))]
pub fn read_sheet(sheet: &[u8]) -> Outcome
    ensures { SheetAnswer sheet.now result }
{
    sheet::read(sheet)
}

#[tactic(auto, using(crate::proofs::Sheets::first_sheet_answer))]
pub fn read_first_sheet(bytes: &[u8]) -> FirstSheet
    ensures { FirstSheetAnswer bytes.now result }
{
    sheet::read_first(bytes)
}

pub fn print_text(sheet: &[u8], out: &mut [u8]) -> usize
    ensures { TextAnswer sheet.now out.old out.new result }
{
    text::print_answer(sheet, out)
}

pub fn analyse_table(cores: u32, table: Table) -> Analysis
    ensures { AnalysisAnswer cores table result }
{
    analysis::analyse(cores, table)
}

pub fn check_table(cores: u32, table: Table) -> Result<(), Fault>
    ensures { TableAnswer cores table result }
{
    table.check(cores)
}

pub fn open_bench(cores: u32, table: Table) -> Opening
    ensures { OpeningAnswer cores table result }
{
    Bench::opened(cores, table)
}

pub fn release_poll(b: Bench, place: usize, demand: Ticks) -> Released
    ensures { ReleaseAnswer b place demand.0 result }
{
    b.release(place, demand)
}

pub fn tick_bench(b: Bench) -> Ticked
    ensures { TickAnswer b result }
{
    b.tick()
}

pub fn replay_calls(
    cores: u32,
    table: Table,
    calls: &[u8],
    out: &mut [u8],
) -> Result<usize, Unanswered>
    ensures { ReplayAnswer cores table calls.now out.old out.new result }
{
    replay::replay(cores, table, calls, out)
}

pub fn analyse_for_c(cores: u32, rows: &[[u64; 3]], bounds: &mut [u64]) -> u64
    ensures { AnswerForC cores (rows_from rows.now)
        bounds.old bounds.new result }
{
    exports::dipperslate_analyse(cores, rows, bounds)
}

pub fn costs_less(row: Row, than: Ticks) -> bool
    ensures { result ≡ ltb row.c.0 than.0 }
{
    row.costs_less(than)
}

pub fn blank_fields() -> RowFields
    ensures { result ≡ blank_entry }
{
    RowFields::blank()
}

pub fn no_rows() -> Table
    ensures { NoRows result }
{
    Table::empty()
}

pub fn add_row(table: Table, row: Row) -> Table
    ensures { OneRowMore table row result }
{
    table.with_row(row)
}

pub fn put_row(mut table: Table, row: Row) -> Table
    ensures { OneRowMore table row result }
{
    table.push(row);
    table
}

pub fn answer_request(b: Bench, request: Request) -> Ticked
    ensures { RequestAnswer b request result }
{
    b.answer(request)
}

pub fn judge_release(b: Bench, place: usize, demand: Ticks) -> Result<(), Refusal>
    ensures { OutcomeBy (release_order b place demand.0) result }
{
    b.judge_release(place, demand)
}

pub fn judge_tick(b: Bench) -> Result<(), Refusal>
    ensures { OutcomeBy (tick_order b) result }
{
    b.judge_tick()
}

#[tactic(auto, using(crate::proofs::Promised::numbered))]
pub fn refusal_number(why: Refusal) -> u8
    ensures { result ≡ number_is why }
{
    why.number()
}

#[tactic(auto, using(crate::proofs::Promised::placed))]
pub fn refusal_place(why: Refusal) -> usize
    ensures { result ≡ place_is why }
{
    why.place()
}

pub fn is_broken(b: Bench) -> bool
    ensures { BrokenAnswer b result }
{
    b.broken()
}

#[tactic(auto, using(crate::proofs::Promised::kind_answer))]
pub fn kind_of_byte(byte: u8) -> Result<Kind, UnknownKind>
    ensures { KindAnswer byte result }
{
    Kind::try_from(byte)
}

#[tactic(auto, using(crate::proofs::Promised::record_answer))]
pub fn record_at(part: &[u8]) -> Record
    ensures { RecordAnswer part.now result }
{
    records::record_on(part)
}

#[tactic(auto, using(crate::proofs::Promised::size_answer))]
pub fn record_size(part: &[u8]) -> usize
    ensures { result ≡ size_is part.now }
{
    records::size_on(part)
}

#[tactic(auto, using(crate::proofs::Promised::end_answer))]
pub fn is_end(found: Record) -> bool
    ensures { EndAnswer found result }
{
    records::is_end(found)
}

#[tactic(auto, using(crate::proofs::Sheets::no_entries))]
pub fn board_sheet(cores: u32, tick: Micros) -> Sheet
    ensures { NoEntries cores tick result }
{
    Sheet::of_board(cores, tick)
}

pub fn is_used(sheet: Sheet, priority: u32) -> bool
    ensures { UsedAnswer sheet priority result }
{
    sheet.is_used(priority)
}

#[tactic(auto, using(crate::proofs::Sheets::entry_answer))]
pub fn add_entry(sheet: Sheet, new: RowFields) -> Sheet
    ensures { EntryAnswer sheet new result }
{
    sheet.with_entry(new)
}

#[tactic(auto, using(crate::proofs::Sheets::rows_of_entries, crate::proofs::Sheets::table_own))]
pub fn table_of(sheet: Sheet) -> Table
    ensures { RowsOfEntries sheet sheet.tick result }
{
    sheet.table()
}

#[tactic(auto, using(crate::proofs::Sheets::rows_of_entries))]
pub fn table_in_ticks(sheet: Sheet, tick: Micros) -> Table
    ensures { RowsOfEntries sheet tick result }
{
    sheet.table_in(tick)
}

#[tactic(auto, using(crate::proofs::Sheets::row_answer))]
pub fn row_in_ticks(fields: RowFields, tick: Micros) -> Row
    ensures { RowAnswer fields tick result }
{
    Sheet::row_in(fields, tick)
}

pub fn interfere(own: Ticks, window: Ticks, work: Ticks) -> Ticks
    ensures { result.0 ≡ interferes own.0 window.0 work.0 }
{
    windows::interference(own, window, work)
}

pub fn tell_table(cores: u32, table: Table, entries: usize) -> Told
    ensures { ToldAnswer cores table entries result }
{
    lentrows::answer_for(cores, table, entries)
}

pub fn row_capacity() -> usize
    ensures { result ≡ 32 }
{
    Table::row_capacity()
}

pub fn core_limit() -> u32
    ensures { result ≡ 16 }
{
    Table::core_limit()
}

pub fn largest_gap() -> Ticks
    ensures { result.0 ≡ 1000000 }
{
    Table::largest_gap()
}

pub fn last_instant() -> Instant
    ensures { result.0 ≡ 1000000000 }
{
    Bench::last_instant()
}

// The named constants themselves.
pub fn named_row_capacity() -> usize
    ensures { result ≡ 32 }
{
    Table::ROW_CAPACITY
}

pub fn named_core_limit() -> u32
    ensures { result ≡ 16 }
{
    Table::CORE_LIMIT
}

pub fn named_largest_gap() -> u64
    ensures { result ≡ 1000000 }
{
    Table::LARGEST_GAP
}

pub fn named_last_instant() -> u64
    ensures { result ≡ 1000000000 }
{
    Bench::LAST_INSTANT
}

pub fn named_text_room() -> usize
    ensures { result ≡ 2856 }
{
    text::TEXT_ROOM
}
