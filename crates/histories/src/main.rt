// Reads many histories from standard input in frames, runs each on a bench and writes how it went in a frame, for a
// comparison with another program. A frame has cores (1 byte), number of rows (1), C, D and T of each row in ticks (4
// each), then the calls as docs/REPLAY.md says. It ends with the input.
#![tactic(auto)]

use quantities::{Fault, Row, Table, Ticks};
use replay::Unanswered;
use std::io;
use std::io::{Read, Stdout};
use streams::{answer_frames, write_frame};

// The room for the answers to the calls of a history, so that a long one finds no room.
const ANSWER_ROOM: usize = 4096;

// That room behind the byte that says how the history ended.
const ENDING_ROOM: usize = ANSWER_ROOM + 1;

// The board of a history.
#[derive(Clone, Copy, Debug, PartialEq, Eq)]
struct Board {
    cores: u32,
    table: Table,
}

fn read_ticks(history: &mut impl Read) -> io::Result<Ticks> {
    let mut bytes = [0u8; 4];
    history.read_exact(&mut bytes)?;
    Ok(Ticks(u64::from(u32::from_be_bytes(bytes))))
}

// Kept: beside the one of lentcalls, whose times have eight bytes; both would share three reads in a row and no more.
fn read_row(history: &mut impl Read) -> io::Result<Row> {
    let c = read_ticks(history)?;
    let d = read_ticks(history)?;
    let t = read_ticks(history)?;
    Ok(Row { c, d, t })
}

fn read_board(history: &mut impl Read) -> io::Result<Board> {
    let mut front = [0u8; 2];
    history.read_exact(&mut front)?;
    let [cores, rows] = front;
    let mut table = Table::empty();
    for _ in 0..rows {
        let row = read_row(history)?;
        table = table.with_row(row);
    }
    Ok(Board {
        cores: u32::from(cores),
        table,
    })
}

// Kept: number and place apart, as the frame has them.
// No bench was opened: 1, then the fault's number and place.
fn write_fault(output: &mut Stdout, number: u32, place: usize) -> io::Result<()> {
    let [.., number] = number.to_be_bytes();
    let [.., place] = place.to_be_bytes();
    write_frame(output, &[1, number, place])
}

// The calls were not all answered: the byte that says so, then the place of the call.
fn write_place(output: &mut Stdout, ending: u8, place: usize) -> io::Result<()> {
    let [.., high, low] = place.to_be_bytes();
    write_frame(output, &[ending, high, low])
}

fn write_unanswered(output: &mut Stdout, why: Unanswered) -> io::Result<()> {
    match why {
        Unanswered::NotOpened(Fault::WholeList(number)) => write_fault(output, number, 0),
        Unanswered::NotOpened(Fault::OneRow(number, place)) => write_fault(output, number, place),
        Unanswered::NotACall(place) => write_place(output, 2, place),
        Unanswered::NoRoom(place) => write_place(output, 3, place),
    }
}

// Runs the calls on a new bench. All calls were answered: 0, then the answers.
fn run(output: &mut Stdout, board: Board, calls: &[u8]) -> io::Result<()> {
    let mut out = [0u8; ENDING_ROOM];
    match replay::replay(board.cores, board.table, calls, &mut out[1..]) {
        Ok(count) => write_frame(output, &out[..=count.min(ANSWER_ROOM)]),
        Err(why) => write_unanswered(output, why),
    }
}

// A frame that is too short for its rows is answered by 4.
fn answer_history(output: &mut Stdout, frame: &[u8]) -> io::Result<()> {
    let mut calls = frame;
    match read_board(&mut calls) {
        Ok(board) => run(output, board, calls),
        Err(_) => write_frame(output, &[4]),
    }
}

// Where a write fails there is nobody to tell: the program ends as it does with its input.
fn main(rt: HostRuntime) {
    let mut output = rt.stdout();
    let _ = answer_frames(&mut rt.stdin(), |frame| answer_history(&mut output, frame));
}
