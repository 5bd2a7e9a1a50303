// The plan on a ring (document 01, "What the planner hands back"): each span is cut in turn, and the best plan of the best line that is left is handed back.
// A cut whose line cannot earn more than the best so far is passed over.
#![tactic(auto)]

mod known;

ghost use Rattle.std.specs.Prelude.{◌≡◌, ◌≤◌, ◌<◌, max, IsOkAnd, length};
ghost use Rattle.paper_rules.specs.Cuts.{cut, cut_best};
ghost use Rattle.plan_ring.specs.Promise.{RingLent, PlannableRing, RingPlanned};

use base_columns::Columns;
use known::Known;
use plan_channels::NoneLeft;

// The plan of the line which the cut leaves: what it earns and how many are kept, the cut, and an entry for each request.
#[derive(Clone, Copy)]
pub struct RingPlan {
    pub earned: usize,
    pub number: usize,
    pub cut: usize,
    pub entries: [usize; 256],
}

// What a cut's line can earn at most, and no less: the ceiling of the known prices on it. (The book that the columns hold is asked for by each function here. A ghost
// field in a type for rings was tried: it has to be a proposition, and the promises speak of the book itself.)
// (Not inlined: its lists would lie on the stack while its caller goes on.)
#[inline(never)]
fn cut_ceiling(ring: &Columns, j: usize, known: &Known) -> usize
    requires ring_columns { RingLent ring.now }
    requires j_in_ring { j < length ring.now.limits.now }
    ensures { (w : RingLent ring.now) → cut_best w.book j ≤ result }
{
    let n = ring.limits.len();
    let mut turned = plan_turn::BLANK;
    plan_turn::turn_columns(ring, j, &mut turned);
    let line = turned.along(n - 1, ring.profit);
    let mut prices = [0; 64];
    plan_turn::turn_limits(n, j, &known.prices, &mut prices);
    work_ceiling::ceiling_of(&line, &prices)
}

// What the line which cut j leaves can earn. Its prices become the known ones.
fn cut_earnings(ring: &Columns, j: usize, known: &mut Known) -> usize
    requires ring_columns { RingLent ring.now }
    requires j_in_ring { j < length ring.now.limits.now }
    ensures { (w : RingLent ring.now) → result ≡ cut_best w.book j }
{
    let mut turned = plan_turn::BLANK;
    plan_turn::turn_columns(ring, j, &mut turned);
    let line = turned.along(ring.limits.len() - 1, ring.profit);
    known.best_earnings(j, &line)
}

// The higher of `top` and what the line which cut j leaves can earn. Where even its ceiling is not above `top`, that line is not planned.
fn raised(ring: &Columns, top: usize, j: usize, known: &mut Known) -> usize
    requires ring_columns { RingLent ring.now }
    requires j_in_ring { j < length ring.now.limits.now }
    ensures { (w : RingLent ring.now) → result ≡ max top (cut_best w.book j) }
{
    let above = cut_ceiling(ring, j, known);
    if above <= top {
        return top;
    }
    let earned = cut_earnings(ring, j, known);
    top.max(earned)
}

// The lowest-numbered span whose line has the greatest best earnings.
// (Not inlined: its lists would lie on the stack while its caller goes on.)
#[inline(never)]
fn best_cut(ring: &Columns) -> usize
    requires { RingLent ring.now }
    ensures { (w : RingLent ring.now) → result ≡ cut w.book }
{
    let mut known = Known { prices: [0; 64] };
    let mut best = 0;
    let mut top = cut_earnings(ring, 0, &mut known);
    for j in 1..ring.limits.len() {
        let earned = raised(ring, top, j, &mut known);
        if top < earned {
            top = earned;
            best = j;
        }
    }
    best
}

// The plan of the best cut's line.
pub fn plan_ring(ring: &Columns, channels: usize) -> Result<RingPlan, NoneLeft>
    requires { PlannableRing channels ring.now }
    ensures { (w : PlannableRing channels ring.now) → IsOkAnd result (RingPlanned w.columns.book) }
{
    let cut = best_cut(ring);
    let mut turned = plan_turn::BLANK;
    plan_turn::turn_columns(ring, cut, &mut turned);
    let line = turned.along(ring.limits.len() - 1, ring.profit);
    let plan = plan_line::plan_line(&line, channels)?;
    let entries = plan.entries;
    Ok(RingPlan {
        earned: plan.earned,
        number: plan.number,
        cut,
        entries,
    })
}
