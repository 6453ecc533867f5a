//! What a tick does to the rows: one turn for each row of the table, from the top.
ghost use Rattle.std.specs.Prelude.{◌≡◌, ◌≤◌, ◌<◌};
ghost use Rattle.quantities.specs.Limits.{row_capacity};
ghost use Rattle.bench.specs.State.{last_instant};
ghost use Rattle.bench.specs.Serving.{since, turn_of};
ghost use Rattle.bench.specs.Step.{ticked_of, taken};

use crate::{Bench, Finish, Finishes, RowState, Ticked, Turn};
use quantities::{Instant, Ticks};

// The ticks from a last release to an instant.
#[tactic(auto, unfolding(crate::specs::Serving::since))]
fn since(instant: Instant, last: Option<Instant>) -> Ticks
    ensures { result ≡ record { 0 = since instant.0 last } }
{
    match last {
        None => Ticks(0),
        Some(at) => Ticks(instant.0.saturating_sub(at.0)),
    }
}

// One row's part in a tick when this many cores are free.
#[tactic(auto, using(crate::proofs::Rows::turn_cases))]
fn serve_row(state: RowState, free: u32) -> Turn
    ensures { result ≡ turn_of free state }
{
    if free == 0 || state.left.0 == 0 {
        return Turn {
            state,
            free,
            ends: false,
        };
    }
    let left = Ticks(state.left.0 - 1);
    Turn {
        state: RowState { left, ..state },
        free: free - 1,
        ends: left.0 == 0,
    }
}

// What a tick that is not refused does.
pub(crate) fn serve(b: Bench) -> Ticked
    requires { (b.table.count ≤ row_capacity) × (b.now.0 < last_instant) }
    ensures { result ≡ ticked_of (taken b) }
{
    let end = Instant(b.now.0 + 1);
    let mut states = b.states;
    let mut free = b.cores;
    let mut finishes = Finishes::none();
    for (i, state) in states[..b.table.count].iter_mut().enumerate() {
        let turn = serve_row(*state, free);
        let poll = Finish {
            place: i + 1,
            response: since(end, state.last),
        };
        finishes = finishes.noted(turn.ends, poll);
        *state = turn.state;
        free = turn.free;
    }
    Ticked {
        outcome: Ok(()),
        finishes,
        bench: Bench {
            now: end,
            states,
            ..b
        },
    }
}
