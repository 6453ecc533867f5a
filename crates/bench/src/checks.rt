//! When number 29 is due for a row's state, and when a release is too soon.
ghost use Rattle.std.specs.Prelude.{◌≡◌, ◌≤◌};
ghost use Rattle.quantities.specs.Limits.{row_capacity};
ghost use Rattle.bench.specs.State.{rows, last_broken, row_broken, rows_broken};
ghost use Rattle.bench.specs.Refusal.{too_soon};

use crate::{Bench, RowState};
use quantities::{Instant, Row, Ticks};

// Whether a last release is after the present instant, or there is work and no release.
#[tactic(auto, unfolding(crate::specs::State::last_broken))]
fn last_broken(now: Instant, last: Option<Instant>, left: Ticks) -> bool
    ensures { result ≡ last_broken now.0 last left.0 }
{
    match last {
        None => 0 < left.0,
        Some(at) => now.0 < at.0,
    }
}

// Whether 29 is due for a row's state: by its last release, a demand above C, a remainder above that demand.
#[tactic(auto, unfolding(crate::specs::State::row_broken))]
fn row_broken(now: Instant, row: Row, state: RowState) -> bool
    ensures { result ≡ row_broken now.0 row state }
{
    last_broken(now, state.last, state.left)
        || row.costs_less(state.demand)
        || state.demand < state.left
}

// Whether 29 is due for the state of one of the rows.
pub(crate) fn rows_broken(b: Bench) -> bool
    requires { b.table.count ≤ row_capacity }
    ensures { result ≡ rows_broken b.now.0 (rows b) b.states }
{
    b.table.rows[..b.table.count]
        .iter()
        .zip(&b.states)
        .any(|(row, state)| row_broken(b.now, *row, *state))
}

// Whether a row with this gap was released fewer than that many ticks ago.
#[tactic(auto, unfolding(crate::specs::Refusal::too_soon))]
pub(crate) fn too_soon(now: Instant, gap: Ticks, last: Option<Instant>) -> bool
    ensures { result ≡ too_soon now.0 gap.0 last }
{
    match last {
        None => false,
        Some(at) => now.0.saturating_sub(at.0) < gap.0,
    }
}
