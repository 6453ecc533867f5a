//! The rows of a sheet, each at its place by priority, and their table: microseconds become ticks of a length.
#![tactic(auto)]

ghost use Rattle.std.specs.Prelude.{◌≡◌};
ghost use Rattle.entries.specs.Entries.{ticks_of, row_in, board_sheet};
ghost use Rattle.entries.specs.Entries.{entries_of, used, with_entry, table_in, table_of};

use quantities::{Micros, Row, Table, Ticks};
use records::RowFields;

// A board and its rows in rising priority, as their records say them: the first `count` entries; the capacity is the
// table's own.
// Kept: an array with its count, since the page `SheetRead` names both and no function here is given memory.
#[derive(Clone, Copy, Debug, PartialEq, Eq)]
pub struct Sheet {
    pub cores: u32,
    pub tick: Micros,
    pub count: usize,
    pub entries: [RowFields; Table::ROW_CAPACITY],
}

// A time in ticks: whole division by the tick length; a length of 0, which 19 turns away, gives 0.
#[tactic(auto, unfolding(crate::specs::Entries::ticks_of))]
fn to_ticks(time: Micros, tick: Micros) -> Ticks
    ensures { result ≡ ticks_of tick time }
{
    Ticks(time.0.checked_div(tick.0).unwrap_or(0))
}

impl Sheet {
    // A row record's fields as a row of the table, its times in ticks of this length.
    #[tactic(auto, unfolding(crate::specs::Entries::row_in))]
    pub fn row_in(fields: RowFields, tick: Micros) -> Row
        ensures { result ≡ row_in tick fields }
    {
        Row {
            c: to_ticks(fields.c, tick),
            d: to_ticks(fields.d, tick),
            t: to_ticks(fields.t, tick),
        }
    }

    // The sheet of a board with no row yet.
    #[tactic(auto, unfolding(crate::specs::Entries::board_sheet))]
    pub fn of_board(cores: u32, tick: Micros) -> Sheet
        ensures { result ≡ board_sheet cores tick }
    {
        Sheet {
            cores,
            tick,
            count: 0,
            entries: [RowFields::blank(); Table::ROW_CAPACITY],
        }
    }

    // Whether a row of the sheet has this priority.
    pub fn is_used(self, priority: u32) -> bool
        ensures { result ≡ used priority (entries_of self) }
    {
        self.entries
            .iter()
            .take(self.count)
            .any(|entry| entry.priority == priority)
    }

    // The sheet with one row more, at its place by priority; a full sheet stays as it is.
    #[tactic(auto, unfolding(crate::specs::Entries::with_entry))]
    pub fn with_entry(mut self, new: RowFields) -> Sheet
        ensures { result ≡ with_entry self new }
    {
        let count = self.count;
        if count < Table::ROW_CAPACITY {
            let mut carried = new;
            for i in 0..count {
                let here = self.entries[i];
                if carried.priority < here.priority {
                    self.entries[i] = carried;
                    carried = here;
                }
            }
            self.entries[count] = carried;
            self.count = count + 1;
        }
        self
    }

    // The table of the sheet's rows in its own ticks.
    #[tactic(auto, unfolding(crate::specs::Entries::table_of))]
    pub fn table(self) -> Table
        ensures { result ≡ table_of self }
    {
        self.table_in(self.tick)
    }

    // The table of the sheet's rows in ticks of any length, in the order of the entries.
    #[tactic(auto, unfolding(crate::specs::Entries::table_in))]
    pub fn table_in(self, tick: Micros) -> Table
        ensures { result ≡ table_in self tick }
    {
        let mut table = Table::empty();
        for entry in self.entries.iter().take(self.count) {
            table = table.with_row(Sheet::row_in(*entry, tick));
        }
        table
    }
}
