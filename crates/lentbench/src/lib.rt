//! The caller's loop lends the bench itself to each call: release and tick on a lent bench, over the steps by value.
#![tactic(auto)]

ghost use Rattle.std.specs.Prelude.{◌≡◌};
ghost use Rattle.bench.specs.History.{after};
ghost use Rattle.bench.specs.Step.{release, tick};
ghost use Rattle.lentbench.specs.Lent.{LentRelease, LentTick, ticks_for};

use bench::{Bench, Finishes, Refusal};
use quantities::Ticks;

// The answer to a tick of a lent bench: taken or refused, and the polls that ended.
// Kept: the page's LentCallsAnswer tells outcome and polls of every tick, of a refused one too.
#[derive(Clone, Copy, Debug, PartialEq, Eq)]
pub struct TickAnswer {
    pub outcome: Result<(), Refusal>,
    pub finishes: Finishes,
}

// A poll of `demand` at `place` starts on the lent bench at its present instant; a refused release leaves it as it was.
#[tactic(auto, unfolding(bench::specs::Step::released_of))]
pub fn release(b: &mut Bench, place: usize, demand: Ticks) -> Result<(), Refusal>
    ensures { LentRelease (release b.old place demand.0) b.new result }
{
    let released = b.release(place, demand);
    *b = released.bench;
    released.outcome
}

// One tick of the lent bench; a refused tick leaves it as it was.
#[tactic(auto, unfolding(bench::specs::Step::ticked_of))]
pub fn tick(b: &mut Bench) -> TickAnswer
    ensures { LentTick (tick b.old) b.new result }
{
    let ticked = b.tick();
    *b = ticked.bench;
    TickAnswer {
        outcome: ticked.outcome,
        finishes: ticked.finishes,
    }
}

// The bench runs for this many ticks: the caller's loop lends it to one tick after another.
#[tactic(auto, using(crate::proofs::Runs::run_steps))]
pub fn run(b: &mut Bench, ticks: Ticks)
    ensures { b.new ≡ after b.old (ticks_for ticks.0) }
{
    for _ in 0..ticks.0 {
        tick(b);
    }
}
