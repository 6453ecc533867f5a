//! The records of an order sheet, a kind byte and then a body: the only place that knows a record's layout.
#![tactic(auto)]

ghost use Rattle.std.specs.Prelude.{◌≡◌, ◌+◌, ◌≤◌, length};
ghost use Rattle.records.specs.Bytes.{field};
ghost use Rattle.records.specs.Records.{kind_number, StandsFor, record_length, row_length};
ghost use Rattle.records.specs.Records.{row_fields, blank_fields, record_on, size_on, is_end};

use quantities::Micros;

// The kinds of record.
#[derive(Clone, Copy, Debug, PartialEq, Eq, PartialOrd, Ord, Hash)]
pub enum Kind {
    Board,
    Row,
    End,
}

// The bytes that stand for them.
pub const BOARD_KIND: u8 = 1;

pub const ROW_KIND: u8 = 2;

pub const END_KIND: u8 = 3;

// A byte that stands for no kind.
#[derive(Clone, Copy, Debug, PartialEq, Eq, PartialOrd, Ord, Hash)]
pub struct UnknownKind(pub u8);

impl TryFrom<u8> for Kind {
    type Error = UnknownKind;

    ghost try_from_gives = { StandsFor };

    #[tactic(auto, unfolding(crate::specs::Records::record_length))]
    fn try_from(byte: u8) -> Result<Kind, UnknownKind> {
        match byte {
            BOARD_KIND => Ok(Kind::Board),
            ROW_KIND => Ok(Kind::Row),
            END_KIND => Ok(Kind::End),
            _ => Err(UnknownKind(byte)),
        }
    }
}

// The lengths of the records, kind byte included. What stands after an end record on a sheet is too much.
const BOARD_LENGTH: usize = 4;

const ROW_LENGTH: usize = 17;

pub const END_LENGTH: usize = 2;

impl Kind {
    // The length of a record of this kind.
    #[tactic(auto, unfolding(crate::specs::Records::record_length))]
    fn length(self) -> usize
        ensures { result ≡ record_length (kind_number self) }
    {
        match self {
            Kind::Board => BOARD_LENGTH,
            Kind::Row => ROW_LENGTH,
            Kind::End => END_LENGTH,
        }
    }
}

// The fields of a row record, as they stand on the sheet.
#[derive(Clone, Copy, Debug, PartialEq, Eq)]
pub struct RowFields {
    pub label: u32,
    pub priority: u32,
    pub c: Micros,
    pub d: Micros,
    pub t: Micros,
}

impl RowFields {
    // The fields of no row record: each is 0.
    pub fn blank() -> RowFields
        ensures { result ≡ blank_fields }
    {
        RowFields {
            label: 0,
            priority: 0,
            c: Micros(0),
            d: Micros(0),
            t: Micros(0),
        }
    }
}

// What stands on the part of a sheet that begins where a record should: no byte, a kind that no record has,
// a record of this kind that is cut short, or a whole record with its fields.
// Kept: records and faults in one enum, since `is_end` is asked of both and edit cut_record_is_the_end lies of a fault;
// the byte of a record cut short, and no `Kind`, since `is_end` is asked of each byte.
#[derive(Clone, Copy, Debug, PartialEq, Eq)]
pub enum Record {
    Missing,
    Unknown,
    Cut(u8),
    Board(u32, Micros),
    Row(RowFields),
    End(usize),
}

// Kept: a part and a place in it, here and in `four_bytes`, as the definition `field` reads; one function of a const
// size would answer bytes and leave the number to each caller.
// The number in the two bytes from a place on.
#[tactic(auto, using(crate::proofs::Bytes::two_be))]
fn two_bytes(part: &[u8], at: usize) -> u16
    requires { at + 2 ≤ length part.now }
    ensures { result ≡ field at 2 part.now }
{
    u16::from_be_bytes([part[at], part[at + 1]])
}

// The number in the four bytes from a place on.
#[tactic(auto, using(crate::proofs::Bytes::four_be))]
fn four_bytes(part: &[u8], at: usize) -> u32
    requires { at + 4 ≤ length part.now }
    ensures { result ≡ field at 4 part.now }
{
    u32::from_be_bytes([part[at], part[at + 1], part[at + 2], part[at + 3]])
}

// The fields of a row record that is whole.
#[tactic(auto, unfolding(crate::specs::Records::row_fields))]
fn row_fields(part: &[u8]) -> RowFields
    requires { row_length ≤ length part.now }
    ensures { result ≡ row_fields part.now }
{
    RowFields {
        label: u32::from(two_bytes(part, 1)),
        priority: u32::from(two_bytes(part, 3)),
        c: Micros(u64::from(four_bytes(part, 5))),
        d: Micros(u64::from(four_bytes(part, 9))),
        t: Micros(u64::from(four_bytes(part, 13))),
    }
}

// What stands on a part of a sheet that begins where a record should, at its kind byte.
#[tactic(auto, using(crate::proofs::Records::on_none, crate::proofs::Records::on_no_kind, crate::proofs::Records::on_short, crate::proofs::Records::long_board, crate::proofs::Records::long_row, crate::proofs::Records::long_end), unfolding(crate::specs::Records::record_length))]
pub fn record_on(part: &[u8]) -> Record
    ensures { result ≡ record_on part.now }
{
    let Some(&byte) = part.first() else {
        return Record::Missing;
    };
    match Kind::try_from(byte) {
        Err(_) => Record::Unknown,
        Ok(kind) if part.len() < kind.length() => Record::Cut(byte),
        Ok(Kind::Board) => Record::Board(u32::from(part[1]), Micros(u64::from(two_bytes(part, 2)))),
        Ok(Kind::Row) => Record::Row(row_fields(part)),
        Ok(Kind::End) => Record::End(usize::from(part[1])),
    }
}

// How many bytes the record on a part takes: the length that its kind fixes, also where it is cut short; 0 where there
// is no byte, or a kind that no record has.
// Kept: 0 and no Option, since `size_is` of the promises and edit no_byte_takes_one say so.
#[tactic(auto, using(crate::proofs::Records::size_none))]
pub fn size_on(part: &[u8]) -> usize
    ensures { result ≡ size_on part.now }
{
    let Some(&byte) = part.first() else {
        return 0;
    };
    Kind::try_from(byte).map_or(0, Kind::length)
}

// Whether a record is the end record.
#[tactic(auto, unfolding(crate::specs::Records::is_end))]
pub fn is_end(found: Record) -> bool
    ensures { result ≡ is_end found }
{
    matches!(found, Record::End(_))
}
