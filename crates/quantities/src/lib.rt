//! The quantities of document 01: instants, lengths, microseconds, a row, a table with its named limits, and a fault.
#![tactic(auto)]

ghost use Rattle.std.specs.Prelude.{◌≡◌, ◌≤◌, ◌<◌, ltb};
ghost use Rattle.quantities.specs.Limits.{row_capacity, core_limit, largest_gap};
ghost use Rattle.quantities.specs.Row.{cost};
ghost use Rattle.quantities.specs.Table.{rows_of, empty_table, with_row};
ghost use Rattle.quantities.specs.Checks.{row_fault, rows_fault, list_fault, checked_of};

// A point on the bench's clock.
#[derive(Clone, Copy, Debug, PartialEq, Eq, PartialOrd, Ord, Hash)]
pub struct Instant(pub u64);

// A length of time in ticks: C, D, T, a window, a bound.
#[derive(Clone, Copy, Debug, PartialEq, Eq, PartialOrd, Ord, Hash)]
pub struct Ticks(pub u64);

// A length of time in microseconds, as a sheet gives it.
#[derive(Clone, Copy, Debug, PartialEq, Eq, PartialOrd, Ord, Hash)]
pub struct Micros(pub u64);

// A landing station as the analysis sees it: worst-case time, deadline, smallest gap.
#[derive(Clone, Copy, Debug, PartialEq, Eq)]
pub struct Row {
    pub c: Ticks,
    pub d: Ticks,
    pub t: Ticks,
}

// Rows in priority order. `count` says how many there are; those past the capacity are counted and not kept.
// Kept: an array with its count, which `rows_of` tells above the capacity too; no function here is given memory.
#[derive(Clone, Copy, Debug, PartialEq, Eq)]
pub struct Table {
    pub count: usize,
    pub rows: [Row; Table::ROW_CAPACITY],
}

// What is wrong with a row list, by the number of document 01: the whole list, or the row at a place.
// Kept: numbers, since document 01 names this form, and TableAnswer says which number a faulty table gets.
#[derive(Clone, Copy, Debug, PartialEq, Eq)]
pub enum Fault {
    WholeList(u32),
    OneRow(u32, usize),
}

impl Row {
    // The most ticks that one poll takes, of a row that passed the checks.
    pub fn cost(self) -> Ticks
        requires { cost self ≤ largest_gap }
        ensures { result.0 ≡ cost self }
    {
        Ticks(self.c.0)
    }

    // Whether one poll takes more than this many ticks. Asked of any row, so nothing is added up.
    fn costs_more(self, than: Ticks) -> bool
        ensures { result ≡ ltb than.0 (cost self) }
    {
        than.0 < self.c.0
    }

    // Whether one poll takes less than this many ticks. Asked of any row, as above.
    pub fn costs_less(self, than: Ticks) -> bool
        ensures { result ≡ ltb (cost self) than.0 }
    {
        self.c.0 < than.0
    }
}

// Checks 3 to 6 of the row at a place, which is the last of its table or not: no check of today asks.
#[tactic(auto, using(crate::proofs::Checks::row_faults), unfolding(crate::specs::Checks::checked_of))]
fn check_row(row: Row, place: usize, last: bool) -> Result<(), Fault>
    requires { 0 < place }
    ensures { result ≡ checked_of (row_fault place last row) }
{
    if row.c.0 == 0 {
        return Err(Fault::OneRow(3, place));
    }
    if row.costs_more(row.d) {
        return Err(Fault::OneRow(4, place));
    }
    if row.t.0 < row.d.0 {
        return Err(Fault::OneRow(5, place));
    }
    if Table::LARGEST_GAP < row.t.0 {
        return Err(Fault::OneRow(6, place));
    }
    Ok(())
}

// Kept: the count is asked here and in bench and is no invariant of a table, since `rows_of` tells of more rows too.
// Checks 3 to 6 of a table's rows, from the top, row by row.
fn check_rows(table: Table) -> Result<(), Fault>
    requires { table.count ≤ row_capacity }
    ensures { result ≡ checked_of (rows_fault 1 (rows_of table)) }
{
    for (i, row) in table.rows[..table.count].iter().enumerate() {
        let place = i + 1;
        check_row(*row, place, place == table.count)?;
    }
    Ok(())
}

impl Table {
    pub const ROW_CAPACITY: usize = 32;

    pub const CORE_LIMIT: u32 = 16;

    pub const LARGEST_GAP: u64 = 1_000_000;

    pub fn row_capacity() -> usize
        ensures { result ≡ row_capacity }
    {
        Table::ROW_CAPACITY
    }

    pub fn core_limit() -> u32
        ensures { result ≡ core_limit }
    {
        Table::CORE_LIMIT
    }

    pub fn largest_gap() -> Ticks
        ensures { result ≡ record { 0 = largest_gap } }
    {
        Ticks(Table::LARGEST_GAP)
    }

    // The table with no row.
    #[tactic(auto, unfolding(crate::specs::Table::empty_table))]
    pub fn empty() -> Table
        ensures { result ≡ empty_table }
    {
        let none = Row {
            c: Ticks(0),
            d: Ticks(0),
            t: Ticks(0),
        };
        Table {
            count: 0,
            rows: [none; Table::ROW_CAPACITY],
        }
    }

    // Puts a row below the others; past the capacity it only counts that there are too many.
    #[tactic(auto, unfolding(crate::specs::Table::with_row))]
    pub fn push(&mut self, row: Row)
        ensures { self.new ≡ with_row self.old row }
    {
        if self.count < Table::ROW_CAPACITY {
            self.rows[self.count] = row;
            self.count += 1;
        } else {
            self.count = Table::ROW_CAPACITY + 1;
        }
    }

    // The table with one row more below the others, as `push` puts it there.
    pub fn with_row(mut self, row: Row) -> Table
        ensures { result ≡ with_row self row }
    {
        self.push(row);
        self
    }

    // Checks 1 to 6 of the table's rows for a board with this many cores, in the order of a list.
    #[tactic(auto, using(crate::proofs::Checks::list_faults), unfolding(crate::specs::Checks::checked_of))]
    pub fn check(self, cores: u32) -> Result<(), Fault>
        ensures { result ≡ checked_of (list_fault cores (rows_of self)) }
    {
        if self.count == 0 {
            return Err(Fault::WholeList(1));
        }
        if Table::ROW_CAPACITY < self.count {
            return Err(Fault::WholeList(1));
        }
        if cores == 0 {
            return Err(Fault::WholeList(2));
        }
        if Table::CORE_LIMIT < cores {
            return Err(Fault::WholeList(2));
        }
        check_rows(self)
    }
}
