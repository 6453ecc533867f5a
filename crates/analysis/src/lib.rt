//! The engine: the bounds of a table's rows from the top, and the answer.
#![tactic(auto)]

ghost use Rattle.std.specs.Prelude.{◌≡◌, ◌+◌, ◌*◌, ◌/◌, ◌≤◌, ◌<◌, min, max, []};
ghost use Rattle.quantities.specs.Limits.{row_capacity, largest_gap};
ghost use Rattle.quantities.specs.Table.{rows_of};
ghost use Rattle.windows.specs.Window.{plain, carry};
ghost use Rattle.windows.specs.Choice.{bounded};
ghost use Rattle.quantities.specs.Checks.{SoundList};
ghost use Rattle.windows.specs.Bound.{window, bound_of, bounds_below};
ghost use Rattle.windows.specs.Answer.{judged, verdict};
ghost use Rattle.windows.specs.Judgement.{row_of_index};
ghost use Rattle.analysis.specs.Analysis.{analysis_of};
ghost use Rattle.analysis.specs.Engine.{largest_window, above, Ready, Ready-prop, CanSearch, CanRaise, Raised, CanLoad};
ghost use Rattle.analysis.specs.Engine.{LoadIs, TakenIs, count_with, least_with, found_of};

use quantities::{Row, Table, Ticks};
use windows::Answer;

// The longest window that the engine tries.
const LARGEST_WINDOW: u64 = 64_000_000;

// The answer to a table, with the bound of each row in the entry of its index; 0 stands where there is no bound.
// Kept: the bounds beside the answer, since AnalysisAnswer says of a table with a fault too that it holds none.
#[derive(Clone, Copy, Debug, PartialEq, Eq)]
pub struct Analysis {
    pub answer: Answer,
    pub bounds: [Ticks; Table::ROW_CAPACITY],
}

// What one row above takes from the row judged, without and with carry-in, and how far the window can grow with the
// row taking every tick of it.
#[derive(Clone, Copy)]
struct Load {
    without: Ticks,
    carrying: Ticks,
    room: Ticks,
}

// What the rows above take from the row judged, and the ticks that they have room for on every core.
#[derive(Clone, Copy)]
struct Taken {
    most: Ticks,
    stride: Ticks,
}

// How many of the rows above have room, and the least room of these.
#[derive(Clone, Copy)]
struct Rooms {
    count: usize,
    least: Ticks,
}

// The row of a table that is judged, by its index, below rows that have their bounds, on a board with this many cores.
#[derive(Clone, Copy)]
struct RowJudged {
    cores: u32,
    table: Table,
    bounds: [Ticks; Table::ROW_CAPACITY],
    k: usize,
    ghost ready: { Ready cores table bounds k } by { Ready-prop cores table bounds k },
}

// Kept: an array with the number of carriers, since `Raised` tells of all its entries; cores go to usize by a cast, as
// `try_from` would add an error that can't come.
// Brings the most with each number of carriers, from 0 up to `carriers`, up to date when one row more takes so much
// without and with carry-in.
fn raise(
    mosts: &mut [u64; Table::CORE_LIMIT as usize],
    carriers: usize,
    without: Ticks,
    carrying: Ticks,
)
    requires { CanRaise mosts.old carriers without.0 carrying.0 }
    ensures { Raised mosts.old mosts.new carriers without.0 carrying.0 }
{
    for m in (1..=carriers).rev() {
        let staying = without.0 + mosts[m];
        let coming = carrying.0 + mosts[m - 1];
        mosts[m] = staying.max(coming);
    }
    mosts[0] += without.0;
}

// Kept: cost and gap apart in the three formulas, as the definitions `plain` and `carry` read.
// The most work of a row in a window without carry-in. It is at most the window, since C is at most T
// (`plain_le_window`).
#[tactic(auto, unfolding(windows::specs::Window::plain))]
fn plain_work(cost: Ticks, gap: Ticks, window: Ticks) -> Ticks
    requires { (0 < gap.0) × (cost.0 ≤ gap.0) }
    ensures { result ≡ record { 0 = plain cost.0 gap.0 window.0 } }
{
    let whole = window.0 / gap.0 * cost.0;
    let rest = window.0 % gap.0;
    Ticks(whole + rest.min(cost.0))
}

// The most work of a row with this bound in a window with carry-in. It is at most the window, or one poll
// (`carry_le_window`).
#[tactic(auto, unfolding(windows::specs::Window::carry))]
fn carry_work(cost: Ticks, gap: Ticks, bound: Ticks, window: Ticks) -> Ticks
    requires { (0 < cost.0) × (cost.0 ≤ gap.0) × (bound.0 ≤ gap.0) }
    ensures { result ≡ record { 0 = carry cost.0 gap.0 bound.0 window.0 } }
{
    let before = window.0.saturating_sub(cost.0);
    let whole = before / gap.0 * cost.0 + cost.0;
    // from the bound to the next release
    let idle = gap.0 - bound.0;
    let carried = (before % gap.0).saturating_sub(idle);
    Ticks(whole + carried.min(cost.0 - 1))
}

// The work of the polls of a row that came in a window, the present one whole.
fn polls_work(window: Ticks, gap: Ticks, cost: Ticks) -> Ticks
    requires { (0 < gap.0) × (cost.0 ≤ gap.0) × (gap.0 ≤ largest_gap) × (window.0 ≤ largest_window) }
    ensures { result.0 ≡ window.0 / gap.0 * cost.0 + cost.0 }
{
    Ticks(window.0 / gap.0 * cost.0 + cost.0)
}

// The load of a row above with this bound on a row with this own cost, in a window.
fn load_of(own: Ticks, window: Ticks, row: Row, bound: Ticks) -> Load
    requires { CanLoad (bounded row bound.0) window.0 }
    ensures { LoadIs own.0 window.0 (bounded row bound.0) result.without.0 result.carrying.0 result.room.0 }
{
    let cost = row.cost();
    let polls = polls_work(window, row.t, cost);
    let plain = plain_work(cost, row.t, window);
    let carry = carry_work(cost, row.t, bound, window);
    let without = windows::interference(own, window, plain);
    let carrying = windows::interference(own, window, carry);
    let unfinished = polls.0 - without.0;
    let cut = carry.0 - carrying.0;
    let room = Ticks(unfinished.min(cut));
    Load {
        without,
        carrying,
        room,
    }
}

impl Rooms {
    // The count and the least with one room more.
    fn with_room(self, room: Ticks) -> Rooms
        requires { self.count < row_capacity }
        ensures { (result.count ≡ count_with room.0 self.count) × (result.least.0 ≡ least_with room.0 self.least.0) }
    {
        if room.0 == 0 {
            return self;
        }
        Rooms {
            count: self.count + 1,
            least: Ticks(room.0.min(self.least.0)),
        }
    }
}

impl RowJudged {
    // What the rows above take from a row with this own cost, in a window: one pass, the row next to it last.
    fn taken_above(&self, own: Ticks, window: Ticks) -> Taken
        requires { window.0 ≤ largest_window }
        ensures { TakenIs self.now.cores own.0 window.0 (above self.now.table self.now.bounds self.now.k) result.most.0
            result.stride.0 }
    {
        let carriers = (self.cores - 1) as usize;
        let mut mosts = [0u64; Table::CORE_LIMIT as usize];
        let mut rooms = Rooms {
            count: 0,
            least: Ticks(LARGEST_WINDOW),
        };
        for (row, bound) in self.table.rows[..self.k].iter().zip(&self.bounds[..self.k]) {
            let load = load_of(own, window, *row, *bound);
            raise(&mut mosts, carriers, load.without, load.carrying);
            rooms = rooms.with_room(load.room);
        }
        let most = Ticks(mosts[carriers]);
        let stride = if carriers < rooms.count {
            rooms.least
        } else {
            Ticks(0)
        };
        Taken { most, stride }
    }

    // The least window from `own` to `top` that passes below the rows above.
    fn window_of(&self, own: Ticks, top: Ticks) -> Option<Ticks>
        requires { top.0 ≤ largest_window }
        ensures { result
            ≡ found_of (window self.now.cores own.0 top.0 (above self.now.table self.now.bounds self.now.k)) }
    {
        let mut x = own.0;
        // Kept: a while, since x jumps and counts nothing.
        while x <= top.0 {
            let window = Ticks(x);
            let taken = self.taken_above(own, window);
            let next = own.0 + taken.most.0 / u64::from(self.cores);
            if next <= x {
                return Some(window);
            }
            let far = x + taken.stride.0 + 1;
            x = next.max(far);
        }
        None
    }

    // The bound of the row: its least window from C to D that passes.
    fn bound_of(&self) -> Option<Ticks>
        requires { CanSearch self.now.table self.now.k }
        ensures { result ≡ found_of (bound_of self.now.cores (above self.now.table self.now.bounds self.now.k)
            (row_of_index (rows_of self.now.table) self.now.k)) }
    {
        let row = self.table.rows[self.k];
        let own = row.cost();
        self.window_of(own, row.d)
    }
}

// The bounds of a sound table's rows from the top, up to the first row that has none, which is then named.
fn bounds_of(cores: u32, table: Table) -> Analysis
    requires { SoundList cores (rows_of table) }
    ensures { result ≡ analysis_of (verdict table.count (bounds_below cores [] (rows_of table))) }
{
    let mut bounds = [Ticks(0); Table::ROW_CAPACITY];
    for k in 0..table.count {
        let row = RowJudged {
            cores,
            table,
            bounds,
            k,
        };
        let Some(bound) = row.bound_of() else {
            let place = k + 1;
            return Analysis {
                answer: Answer::NotShown(8, place),
                bounds,
            };
        };
        bounds[k] = bound;
    }
    Analysis {
        answer: Answer::Shown,
        bounds,
    }
}

// Kept: cores and table apart, as the contracts of this function, of `Bench::opened` and of `replay` name them.
// The answer to a table's rows on a board with this many cores: its fault, or its bounds from the top.
pub fn analyse(cores: u32, table: Table) -> Analysis
    ensures { result ≡ analysis_of (judged cores (rows_of table)) }
{
    match table.check(cores) {
        Ok(()) => bounds_of(cores, table),
        Err(fault) => Analysis {
            answer: Answer::Refused(fault),
            bounds: [Ticks(0); Table::ROW_CAPACITY],
        },
    }
}
