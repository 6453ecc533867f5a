// Lends benches from standard input to calls, and writes the answers and the benches: second/README.md has the bytes.
#![tactic(auto)]

ghost use Rattle.std.specs.Prelude.{◌≡◌};
ghost use Rattle.bench.specs.History.{after};
ghost use Rattle.bench.specs.Step.{released_of, ticked_of, release, tick};
ghost use Rattle.lentbench.specs.Lent.{ticks_for};

use bench::{Bench, Released, Ticked};
use quantities::{Table, Ticks};
use reading::{Call, read_bench, read_call};
use std::io;
use std::io::{ErrorKind, Stdout};
use streams::answer_frames;
use writing::{write_bench, write_outcome, write_polls};

mod reading;
mod writing;

// The bytes of a bench's head: its cores (4), instant (8) and row count (2).
const HEAD_SIZE: usize = 14;

// The bytes of an entry: C, D, T (8 each), whether the row was released (1), last release, demand and remainder (8
// each).
const ENTRY_SIZE: usize = 49;

// The bytes of a bench: its head, then an entry for each row that a table has room for, whatever its row count says.
const BENCH_SIZE: usize = HEAD_SIZE + ENTRY_SIZE * Table::ROW_CAPACITY;

// The bytes of a call: its kind (1), a place and a demand (8 each). A frame is a bench and calls after it.
const CALL_SIZE: usize = 17;

// Lends the bench to a release, and hands it on as it comes back.
#[tactic(auto, unfolding(bench::specs::Step::released_of))]
fn lend_release(mut bench: Bench, place: usize, demand: Ticks) -> Released
    ensures { result ≡ released_of (release bench place demand.0) }
{
    let outcome = lentbench::release(&mut bench, place, demand);
    Released { outcome, bench }
}

// Lends the bench to a tick, and hands it on as it comes back.
#[tactic(auto, unfolding(bench::specs::Step::ticked_of))]
fn lend_tick(mut bench: Bench) -> Ticked
    ensures { result ≡ ticked_of (tick bench) }
{
    let answer = lentbench::tick(&mut bench);
    Ticked {
        outcome: answer.outcome,
        finishes: answer.finishes,
        bench,
    }
}

// Lends the bench to a run of this many ticks, and hands it on as it comes back.
fn lend_run(mut bench: Bench, ticks: Ticks) -> Bench
    ensures { result ≡ after bench (ticks_for ticks.0) }
{
    lentbench::run(&mut bench, ticks);
    bench
}

// Makes a call on the bench and writes its answer.
fn answer_call(output: &mut Stdout, bench: &mut Bench, call: Call) -> io::Result<()> {
    match call {
        Call::Release(place, demand) => {
            let released = lend_release(*bench, place, demand);
            *bench = released.bench;
            write_outcome(output, released.outcome, 0)
        }
        Call::Run(ticks) => {
            *bench = lend_run(*bench, ticks);
            write_outcome(output, Ok(()), 0)
        }
        Call::Tick => {
            let ticked = lend_tick(*bench);
            *bench = ticked.bench;
            write_outcome(output, ticked.outcome, ticked.finishes.count)?;
            write_polls(output, ticked.finishes)
        }
    }
}

// Makes the calls that stand after the bench of a frame, one after the other, and writes the bench that they leave. A
// frame that is no bench and whole calls ends the program, as the input's end does.
fn answer_frame(output: &mut Stdout, frame: &[u8]) -> io::Result<()> {
    let mut calls = frame;
    let mut bench = read_bench(&mut calls)?;
    if calls.len() % CALL_SIZE > 0 {
        return Err(ErrorKind::InvalidData.into());
    }
    for mut call in calls.chunks_exact(CALL_SIZE) {
        let call = read_call(&mut call)?;
        answer_call(output, &mut bench, call)?;
    }
    write_bench(output, &bench)
}

// Where a write fails there is nobody to tell: the program ends as it does with its input.
fn main(rt: HostRuntime) {
    let mut output = rt.stdout();
    let _ = answer_frames(&mut rt.stdin(), |frame| answer_frame(&mut output, frame));
}
