//! The answers to calls and the bench after them, written to standard output.
use crate::{BENCH_SIZE, ENTRY_SIZE, HEAD_SIZE};
use bench::{Bench, Finish, Finishes, Refusal, RowState};
use quantities::Row;
use std::io;
use std::io::{Stdout, Write};

// Each number goes to its place in the entry. A writer's `write_all` would call memcpy for every one.
fn put_entry(out: &mut [u8; ENTRY_SIZE], row: Row, state: RowState) {
    out[..8].copy_from_slice(&row.c.0.to_be_bytes());
    out[8..16].copy_from_slice(&row.d.0.to_be_bytes());
    out[16..24].copy_from_slice(&row.t.0.to_be_bytes());
    out[24] = u8::from(state.last.is_some());
    let last = state.last.map_or(0, |last| last.0);
    out[25..33].copy_from_slice(&last.to_be_bytes());
    out[33..41].copy_from_slice(&state.demand.0.to_be_bytes());
    out[41..].copy_from_slice(&state.left.0.to_be_bytes());
}

pub fn write_bench(output: &mut Stdout, bench: &Bench) -> io::Result<()> {
    let mut out = [0u8; BENCH_SIZE];
    out[..4].copy_from_slice(&bench.cores.to_be_bytes());
    out[4..12].copy_from_slice(&bench.now.0.to_be_bytes());
    let [.., high, low] = bench.table.count.to_be_bytes();
    out[12..HEAD_SIZE].copy_from_slice(&[high, low]);
    let (entries, _) = out[HEAD_SIZE..].as_chunks_mut();
    for ((entry, row), state) in entries.iter_mut().zip(&bench.table.rows).zip(&bench.states) {
        put_entry(entry, *row, *state);
    }
    output.write_all(&out)
}

// The outcome of a call: its number, its place, and how many polls ended. Number and place are 0 where it was taken.
pub fn write_outcome(
    output: &mut Stdout,
    outcome: Result<(), Refusal>,
    ended: usize,
) -> io::Result<()> {
    let [.., ended] = ended.to_be_bytes();
    let mut out = [0u8; 10];
    if let Err(why) = outcome {
        out[0] = why.number();
        out[1..9].copy_from_slice(&why.place().to_be_bytes());
    }
    out[9] = ended;
    output.write_all(&out)
}

fn write_poll(output: &mut Stdout, poll: Finish) -> io::Result<()> {
    let [.., place] = poll.place.to_be_bytes();
    let mut out = [0u8; 9];
    out[0] = place;
    out[1..].copy_from_slice(&poll.response.0.to_be_bytes());
    output.write_all(&out)
}

pub fn write_polls(output: &mut Stdout, polls: Finishes) -> io::Result<()> {
    for poll in polls.list.iter().take(polls.count) {
        write_poll(output, *poll)?;
    }
    Ok(())
}
