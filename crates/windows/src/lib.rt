//! What a row above takes of a window, and the type of the answer to a list.
#![tactic(auto)]

ghost use Rattle.std.specs.Prelude.{◌≡◌};
ghost use Rattle.windows.specs.Window.{interference};

use quantities::{Fault, Ticks};

// The answer to a row list: every row has its bound, a row has none, by its number and place, or the list has a fault.
// Kept: three cases and a number, since document 01 names this form and FirstRowNotShown says which number is due.
#[derive(Clone, Copy, Debug, PartialEq, Eq)]
pub enum Answer {
    Shown,
    NotShown(u32, usize),
    Refused(Fault),
}

// What a row that works so much in a window takes from a row with this own cost: at most window − own + 1.
#[tactic(auto, unfolding(crate::specs::Window::interference, crate::specs::Window::limit))]
pub fn interference(own: Ticks, window: Ticks, work: Ticks) -> Ticks
    ensures { result ≡ record { 0 = interference own.0 window.0 work.0 } }
{
    // A limit of one more than a number holds cuts no work off.
    let limit = window.0.saturating_sub(own.0).saturating_add(1);
    Ticks(work.0.min(limit))
}
