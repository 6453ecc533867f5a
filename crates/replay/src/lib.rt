//! A bench run from bytes: calls in six bytes each, answers as bytes in a lent buffer. docs/REPLAY.md has the format.
#![tactic(auto)]

ghost use Rattle.std.specs.Prelude.{◌≡◌, ◌+◌, ◌*◌, ◌≤◌, ◌<◌, length, take};
ghost use Rattle.std.proofs.lemmas.List.Edits.{sets};
ghost use Rattle.quantities.specs.Limits.{row_capacity};
ghost use Rattle.bench.specs.Refusal.{outcome_paper};
ghost use Rattle.replay.specs.Format.{request_in, byte_of, poll_bytes, polls_bytes, answer_of};
ghost use Rattle.replay.specs.Replay.{replay_from, replay};

use bench::{Bench, Finish, Finishes, Refusal, Request};
use quantities::{Fault, Table, Ticks};

// The bytes of a call.
const CALL_SIZE: usize = 6;

// Why calls are left unanswered: no bench; no call, or no room for its answer, at a byte of the calls.
#[derive(Clone, Copy, Debug, PartialEq, Eq)]
pub enum Unanswered {
    NotOpened(Fault),
    NotACall(usize),
    NoRoom(usize),
}

// The call in the first six bytes, if they are there and are one.
#[tactic(auto, using(crate::proofs::Format::request_cases))]
fn read_call(bytes: &[u8]) -> Option<Request>
    ensures { result ≡ request_in bytes.now }
{
    let [kind, place, first, second, third, fourth, ..] = *bytes else {
        return None;
    };
    match kind {
        1 => {
            let demand = u32::from_be_bytes([first, second, third, fourth]);
            Some(Request::Release(usize::from(place), Ticks(u64::from(demand))))
        }
        2 => Some(Request::Tick),
        _ => None,
    }
}

// The lowest byte of a place or a count.
fn low_byte(number: usize) -> u8
    ensures { result ≡ byte_of number }
{
    let [.., low] = number.to_be_bytes();
    low
}

// Kept: a buffer and a place in it, here and in the next two, as the definition `sets` lays bytes.
// A poll that ended, in five bytes.
#[tactic(auto, using(crate::proofs::Writes::put_is_sets))]
fn put_poll(out: &mut [u8], at: usize, poll: Finish)
    requires { at + 5 ≤ length out.old }
    ensures { out.new ≡ sets out.old at (poll_bytes poll) }
{
    let [.., first, second, third, fourth] = poll.response.0.to_be_bytes();
    out[at..at + 5].copy_from_slice(&[low_byte(poll.place), first, second, third, fourth]);
}

// The polls that ended, five bytes each.
#[tactic(auto, using(crate::proofs::Writes::polls_written))]
fn put_polls(out: &mut [u8], from: usize, polls: Finishes)
    requires { (polls.count ≤ row_capacity) × (from + 5 * polls.count ≤ length out.old) }
    ensures { out.new ≡ sets out.old from (polls_bytes (take polls.count polls.list)) }
{
    for (i, poll) in polls.list[..polls.count].iter().enumerate() {
        put_poll(out, from + 5 * i, *poll);
    }
}

// The answer to a call: its number, 0 where it was taken, and place, how many polls ended, and these.
fn put_answer(out: &mut [u8], at: usize, outcome: Result<(), Refusal>, polls: Finishes)
    requires { (polls.count ≤ row_capacity) × (at + 3 + 5 * polls.count ≤ length out.old) }
    ensures { out.new ≡ sets out.old at (answer_of outcome (take polls.count polls.list)) }
{
    let (number, place) = match outcome {
        Ok(()) => (0, 0),
        Err(why) => (why.number(), why.place()),
    };
    out[at..at + 3].copy_from_slice(&[number, low_byte(place), low_byte(polls.count)]);
    put_polls(out, at + 3, polls);
}

// The calls from the first byte on, answered one after the other.
fn run_calls(mut bench: Bench, calls: &[u8], out: &mut [u8]) -> Result<usize, Unanswered>
    ensures value { result ≡ (replay_from bench calls.now out.old).answer }
    ensures out_after { out.new ≡ (replay_from bench calls.now out.old).out }
{
    let mut at = 0;
    for (i, call) in calls.chunks(CALL_SIZE).enumerate() {
        let Some(request) = read_call(call) else {
            return Err(Unanswered::NotACall(CALL_SIZE * i));
        };
        let answer = bench.answer(request);
        let size = 3 + 5 * answer.finishes.count;
        if out.len() - at < size {
            return Err(Unanswered::NoRoom(CALL_SIZE * i));
        }
        put_answer(out, at, answer.outcome, answer.finishes);
        at += size;
        bench = answer.bench;
    }
    Ok(at)
}

// A bench is opened for the table and the calls are answered in order, as far as they are calls and there is room. The
// answers' number of bytes comes back.
#[tactic(auto, using(crate::proofs::Calls::replay_cases))]
pub fn replay(cores: u32, table: Table, calls: &[u8], out: &mut [u8]) -> Result<usize, Unanswered>
    ensures value { result ≡ (replay cores table calls.now out.old).answer }
    ensures out_after { out.new ≡ (replay cores table calls.now out.old).out }
{
    let opening = Bench::opened(cores, table);
    match opening.found {
        Ok(()) => run_calls(opening.bench, calls, out),
        Err(fault) => Err(Unanswered::NotOpened(fault)),
    }
}
