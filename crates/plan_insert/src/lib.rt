// The best set on a row of cells, with its prices: candidates are inserted one at a time into a flow with signed costs. A candidate costs
// minus its profit, an idle cell 0; a node's distance is never above 0, and no arc of the residual network can lower one any more.
#![tactic(auto)]

mod chains;
mod ground;
mod insert;
mod marks;
mod search;
mod steps;
mod walk;

ghost use Rattle.plan_insert.specs.State.{at, CanPlan, Standing};

use chains::{Chain, Sides};
use insert::Planner;
use marks::Marks;
use search::Search;

// A row's cells, and its candidates: candidate i is over the cells lo[i] to hi[i] - 1 and costs minus its profit.
// (No heap: lists as long as any book's. That the cells are few is asked where a function counts them: a ghost field would have to hold while a row is being laid.)
#[derive(Clone, Copy)]
pub struct Row {
    pub cells: usize,
    pub lo: [usize; 256],
    pub hi: [usize; 256],
    pub cost: [i64; 256],
}

// Which candidates are kept, and each node's distance: the price of cell j is dist[j] - dist[j + 1].
#[derive(Clone, Copy)]
pub struct Planned {
    pub kept: [bool; 256],
    pub dist: [i64; 128],
}

// A planner before its first insertion. (A constant: one that is put together here would lie on the stack twice.)
const FRESH: Planner = Planner {
    chains: Sides {
        dropped: Chain {
            head: [0; 128],
            next: [0; 256],
        },
        held: Chain {
            head: [0; 128],
            next: [0; 256],
        },
    },
    search: Search {
        rank: [0; 128],
        marks: Marks {
            label: [0; 128],
            by: [0; 128],
            from: [0; 128],
            list: [0; 128],
            size: 0,
        },
    },
};

// Plans a row with its first `count` candidates. `room` has each cell's limit and ends as the room that is left.
// (Not inlined: its lists would lie on the stack while its caller goes on.)
#[inline(never)]
pub fn plan_row(row: &Row, count: usize, room: &mut [usize; 128]) -> Planned
    requires { CanPlan row.now.cells count row.now.lo row.now.hi row.now.cost room.old }
    ensures { Standing (at room.old) count row.now.cells count row.now.lo row.now.hi row.now.cost result.kept room.new result.dist }
{
    let mut planned = Planned {
        kept: [false; 256],
        dist: [0; 128],
    };
    let mut planner = FRESH;
    steps::begin(row, count, room, &mut planned.dist);
    for t in 0..count {
        planner.insert(row, t, &mut planned, room);
    }
    planned
}
