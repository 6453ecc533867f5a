//! The bench of document 01: a board run tick by tick. Its types and its steps by value.
#![tactic(auto)]

ghost use Rattle.std.specs.Prelude.{◌≡◌, [], ◌≤◌, ◌<◌};
ghost use Rattle.laws.specs.Checks.{first_failing};
ghost use Rattle.quantities.specs.Limits.{row_capacity};
ghost use Rattle.bench.specs.State.{last_instant, broken};
ghost use Rattle.bench.specs.Refusal.{outcome_of, refusal_paper, release_tests, tick_tests};
ghost use Rattle.bench.specs.Ended.{finishes_of, noted};
ghost use Rattle.bench.specs.History.{do_call, call_of};
ghost use Rattle.bench.specs.Step.{empty_bench, no_bench, opening_of, released_of, ticked_of, started, release, tick};

use checks::{rows_broken, too_soon};
use quantities::{Fault, Instant, Table, Ticks};
use tick::serve;

mod checks;
mod tick;

// What the bench holds of a row: its last release, if there was one, the demand released then, and what remains of it.
#[derive(Clone, Copy, Debug, PartialEq, Eq)]
pub struct RowState {
    pub last: Option<Instant>,
    pub demand: Ticks,
    pub left: Ticks,
}

// A board being run: its cores and table, the present instant, and a state for each row of the table.
// Kept: states beside the table's rows, since the page OpenedHolds and `rows_broken` name the table by itself.
#[derive(Clone, Copy, Debug, PartialEq, Eq)]
pub struct Bench {
    pub cores: u32,
    pub table: Table,
    pub now: Instant,
    pub states: [RowState; Table::ROW_CAPACITY],
}

// A call on the bench.
#[derive(Clone, Copy, Debug, PartialEq, Eq)]
pub enum Request {
    Release(usize, Ticks),
    Tick,
}

// Why a call is turned away, at the place given: numbers 20 to 24 and 29 of document 01.
#[derive(Clone, Copy, Debug, PartialEq, Eq)]
pub enum Refusal {
    NoPlace(usize),
    Unfinished(usize),
    TooSoon(usize),
    WrongDemand(usize),
    ClockEnd,
    BrokenRecord,
}

// A poll that ended: the place of its row, and the ticks from its release to its end.
#[derive(Clone, Copy, Debug, PartialEq, Eq)]
pub struct Finish {
    pub place: usize,
    pub response: Ticks,
}

// The polls that ended in a tick, in rising place; entries from `count` on are blank.
// Kept: the pages' ListsPolls and polls_in name the count and the list.
#[derive(Clone, Copy, Debug, PartialEq, Eq)]
pub struct Finishes {
    pub count: usize,
    pub list: [Finish; Table::ROW_CAPACITY],
}

// The answer to an opening: what checks 1 to 6 found and, where they found nothing, the bench at instant 0.
// Kept: the page's NotOpened says which bench stands where none is opened, and refused_opening_answers_calls denies it.
#[derive(Clone, Copy, Debug, PartialEq, Eq)]
pub struct Opening {
    pub found: Result<(), Fault>,
    pub bench: Bench,
}

// The answer to a release, and the bench after it.
// Kept: the page's ReleaseAnswer says that a refused release hands back the bench as it was.
#[derive(Clone, Copy, Debug, PartialEq, Eq)]
pub struct Released {
    pub outcome: Result<(), Refusal>,
    pub bench: Bench,
}

// The answer to a tick, and the bench after it.
// Kept: the page's TickTurnedAway says which bench and which polls a refused tick hands back.
#[derive(Clone, Copy, Debug, PartialEq, Eq)]
pub struct Ticked {
    pub outcome: Result<(), Refusal>,
    pub finishes: Finishes,
    pub bench: Bench,
}

// One row's part in a tick: its state after it, the cores still free, and whether its poll ended.
#[derive(Clone, Copy)]
struct Turn {
    state: RowState,
    free: u32,
    ends: bool,
}

impl Refusal {
    // Its number in document 01.
    #[tactic(auto, unfolding(crate::specs::Refusal::refusal_paper))]
    pub fn number(self) -> u8
        ensures { result ≡ (refusal_paper self).number }
    {
        match self {
            Refusal::NoPlace(_) => 20,
            Refusal::Unfinished(_) => 21,
            Refusal::TooSoon(_) => 22,
            Refusal::WrongDemand(_) => 23,
            Refusal::ClockEnd => 24,
            Refusal::BrokenRecord => 29,
        }
    }

    // Kept: 0 where it is of no row, as `refusal_paper` says.
    // The place that stands with it: 0 where it is of no row.
    #[tactic(auto, unfolding(crate::specs::Refusal::refusal_paper))]
    pub fn place(self) -> usize
        ensures { result ≡ (refusal_paper self).place }
    {
        match self {
            Refusal::NoPlace(place) => place,
            Refusal::Unfinished(place) => place,
            Refusal::TooSoon(place) => place,
            Refusal::WrongDemand(place) => place,
            Refusal::ClockEnd | Refusal::BrokenRecord => 0,
        }
    }
}

impl Finishes {
    // The list of no polls.
    #[tactic(auto, unfolding(crate::specs::Ended::finishes_of))]
    fn none() -> Finishes
        ensures { result ≡ finishes_of [] }
    {
        let blank = Finish {
            place: 0,
            response: Ticks(0),
        };
        Finishes {
            count: 0,
            list: [blank; Table::ROW_CAPACITY],
        }
    }

    // Kept: a flag beside the poll, as the definition `noted` has them.
    // The list with one poll more, if it ended.
    #[tactic(auto, unfolding(crate::specs::Ended::noted))]
    fn noted(mut self, ended: bool, poll: Finish) -> Finishes
        requires { self.count < row_capacity }
        ensures { result ≡ noted self ended poll }
    {
        if ended {
            self.list[self.count] = poll;
            self.count += 1;
        }
        self
    }
}

impl Bench {
    pub const LAST_INSTANT: u64 = 1_000_000_000;

    pub fn last_instant() -> Instant
        ensures { result ≡ record { 0 = last_instant } }
    {
        Instant(Bench::LAST_INSTANT)
    }

    // The bench of a table with no row, which stands where an opening is refused.
    #[tactic(auto, unfolding(crate::specs::Step::no_bench))]
    fn none() -> Bench
        ensures { result ≡ no_bench }
    {
        Bench::empty(0, Table::empty())
    }

    // The bench of a table at instant 0, with no row released.
    #[tactic(auto, unfolding(crate::specs::Step::empty_bench))]
    fn empty(cores: u32, table: Table) -> Bench
        ensures { result ≡ empty_bench cores table }
    {
        let idle = RowState {
            last: None,
            demand: Ticks(0),
            left: Ticks(0),
        };
        Bench {
            cores,
            table,
            now: Instant(0),
            states: [idle; Table::ROW_CAPACITY],
        }
    }

    // A bench for a table that passes checks 1 to 6, at instant 0.
    #[tactic(auto, using(crate::proofs::Open::opening_cases))]
    pub fn opened(cores: u32, table: Table) -> Opening
        ensures { result ≡ opening_of cores table }
    {
        if let Err(fault) = table.check(cores) {
            return Opening {
                found: Err(fault),
                bench: Bench::none(),
            };
        }
        Opening {
            found: Ok(()),
            bench: Bench::empty(cores, table),
        }
    }

    // Whether number 29 is due: by a table failing 1 to 6, an instant above 1,000,000,000, or a row's state.
    #[tactic(auto, using(crate::proofs::State::broken_cases))]
    pub fn broken(self) -> bool
        ensures { result ≡ broken self }
    {
        self.table.check(self.cores).is_err()
            || Bench::LAST_INSTANT < self.now.0
            || rows_broken(self)
    }

    // Kept: place and demand apart, as this function, `release` and lentbench's ask; `Request` joins them.
    // Whether a release of `demand` at `place` is taken, or refused: the first of 29, 20, 23, 22, 21 decides.
    #[tactic(auto, using(crate::proofs::Permitted::release_cases), unfolding(crate::specs::Refusal::outcome_of))]
    pub fn judge_release(self, place: usize, demand: Ticks) -> Result<(), Refusal>
        ensures { result ≡ outcome_of (first_failing (release_tests self place demand.0)) }
    {
        if self.broken() {
            return Err(Refusal::BrokenRecord);
        }
        if place == 0 || self.table.count < place {
            return Err(Refusal::NoPlace(place));
        }
        let row = self.table.rows[place - 1];
        let state = self.states[place - 1];
        if demand.0 == 0 || row.costs_less(demand) {
            return Err(Refusal::WrongDemand(place));
        }
        if too_soon(self.now, row.t, state.last) {
            return Err(Refusal::TooSoon(place));
        }
        if 0 < state.left.0 {
            return Err(Refusal::Unfinished(place));
        }
        Ok(())
    }

    // Whether a tick is taken, or refused: the first of 29 and 24 decides.
    #[tactic(auto, using(crate::proofs::Permitted::tick_cases), unfolding(crate::specs::Refusal::outcome_of))]
    pub fn judge_tick(self) -> Result<(), Refusal>
        ensures { result ≡ outcome_of (first_failing (tick_tests self)) }
    {
        if self.broken() {
            return Err(Refusal::BrokenRecord);
        }
        if self.now.0 == Bench::LAST_INSTANT {
            return Err(Refusal::ClockEnd);
        }
        Ok(())
    }

    // The bench with a poll of `demand` started at a place of its states, at the present instant.
    #[tactic(auto, unfolding(crate::specs::Step::started))]
    fn start(mut self, place: usize, demand: Ticks) -> Bench
        requires { (0 < place) × (place ≤ row_capacity) }
        ensures { result ≡ started self place demand.0 }
    {
        self.states[place - 1] = RowState {
            last: Some(self.now),
            demand,
            left: demand,
        };
        self
    }

    // A poll of `demand` at `place` starts at the present instant; a refused release changes nothing.
    #[tactic(auto, using(crate::proofs::Permitted::judged_release), unfolding(crate::specs::Step::released_of, crate::specs::Step::release, crate::specs::Step::unless_refused))]
    pub fn release(self, place: usize, demand: Ticks) -> Released
        ensures { result ≡ released_of (release self place demand.0) }
    {
        match self.judge_release(place, demand) {
            Ok(()) => Released {
                outcome: Ok(()),
                bench: self.start(place, demand),
            },
            Err(why) => Released {
                outcome: Err(why),
                bench: self,
            },
        }
    }

    // Rows with work are served from the top, one unit each, while there are cores; the instant grows by one.
    #[tactic(auto, using(crate::proofs::Permitted::judged_tick), unfolding(crate::specs::Step::ticked_of, crate::specs::Step::tick, crate::specs::Step::unless_refused))]
    pub fn tick(self) -> Ticked
        ensures { result ≡ ticked_of (tick self) }
    {
        match self.judge_tick() {
            Ok(()) => serve(self),
            Err(why) => Ticked {
                outcome: Err(why),
                finishes: Finishes::none(),
                bench: self,
            },
        }
    }

    // The answer to a call, and the bench after it; a release ends no poll.
    #[tactic(auto, using(crate::proofs::Steps::released_answer), unfolding(crate::specs::History::call_of))]
    pub fn answer(self, request: Request) -> Ticked
        ensures { result ≡ ticked_of (do_call self (call_of request)) }
    {
        match request {
            Request::Tick => self.tick(),
            Request::Release(place, demand) => {
                let released = self.release(place, demand);
                Ticked {
                    outcome: released.outcome,
                    finishes: Finishes::none(),
                    bench: released.bench,
                }
            }
        }
    }
}
