//! A bench and a call, read from bytes: numbers are unsigned, most significant byte first.
use bench::{Bench, RowState};
use quantities::{Instant, Row, Table, Ticks};
use std::io;
use std::io::ErrorKind;

// The kinds of call that are no tick.
const RELEASE: u8 = 1;

const RUN: u8 = 3;

// A call on a lent bench.
#[derive(Clone, Copy, Debug, PartialEq, Eq)]
pub enum Call {
    Release(usize, Ticks),
    Run(Ticks),
    Tick,
}

// Takes an array off the front. A reader's `read_exact` would call memcpy for every number.
fn read_array<const N: usize>(bytes: &mut &[u8]) -> io::Result<[u8; N]> {
    let Some((first, rest)) = bytes.split_first_chunk() else {
        return Err(ErrorKind::UnexpectedEof.into());
    };
    *bytes = rest;
    Ok(*first)
}

fn read_number(bytes: &mut &[u8]) -> io::Result<u64> {
    let array = read_array(bytes)?;
    Ok(u64::from_be_bytes(array))
}

// Kept: beside the one of histories, whose times have four bytes.
fn read_row(bytes: &mut &[u8]) -> io::Result<Row> {
    let c = Ticks(read_number(bytes)?);
    let d = Ticks(read_number(bytes)?);
    let t = Ticks(read_number(bytes)?);
    Ok(Row { c, d, t })
}

fn read_state(bytes: &mut &[u8]) -> io::Result<RowState> {
    let [was_released]: [u8; 1] = read_array(bytes)?;
    let last = Instant(read_number(bytes)?);
    let demand = Ticks(read_number(bytes)?);
    let left = Ticks(read_number(bytes)?);
    Ok(RowState {
        last: if was_released == 0 { None } else { Some(last) },
        demand,
        left,
    })
}

// Reads a bench's head, then a row and its state for every entry: those past the count are kept too, so that a call can
// be seen to leave them.
pub fn read_bench(bytes: &mut &[u8]) -> io::Result<Bench> {
    let cores = u32::from_be_bytes(read_array(bytes)?);
    let now = Instant(read_number(bytes)?);
    let mut table = Table::empty();
    table.count = usize::from(u16::from_be_bytes(read_array(bytes)?));
    let idle = RowState {
        last: None,
        demand: Ticks(0),
        left: Ticks(0),
    };
    let mut states = [idle; Table::ROW_CAPACITY];
    for (row, state) in table.rows.iter_mut().zip(&mut states) {
        *row = read_row(bytes)?;
        *state = read_state(bytes)?;
    }
    Ok(Bench {
        cores,
        table,
        now,
        states,
    })
}

// Reads a call: its kind, a place and a demand. A kind that no other call has is a tick, which looks at neither.
pub fn read_call(bytes: &mut &[u8]) -> io::Result<Call> {
    let [kind]: [u8; 1] = read_array(bytes)?;
    // Kept: `as` is proved to lose nothing here, and `try_from` would add an error that can't come.
    let place = read_number(bytes)? as usize;
    let demand = Ticks(read_number(bytes)?);
    Ok(match kind {
        RELEASE => Call::Release(place, demand),
        RUN => Call::Run(demand),
        _ => Call::Tick,
    })
}
