// The best plan on a line, with its channels and its prices (document 01, "What the planner hands back"). The line is a row: its spans are the cells, and a
// request lies over the cells between its ends.
#![tactic(auto)]

mod entries;

ghost use Rattle.std.specs.Prelude.{◌≡◌, IsOkAnd, length};
ghost use Rattle.paper_rules.specs.Best.{best};
ghost use Rattle.plan_row.specs.Placing.{OneToOne, LowPrices};
ghost use Rattle.plan_line.specs.Promise.{LineLent, PlannableLine, LinePlanned};

use base_columns::Columns;
use plan_channels::NoneLeft;

// A best plan: what it earns and how many are kept, an entry for each request and a price for each span. (No heap: lists as long as any book's. A ring's plan has a
// cut and no prices, so that one struct for both would hold what is neither's.)
#[derive(Clone, Copy)]
pub struct LinePlan {
    pub earned: usize,
    pub number: usize,
    pub entries: [usize; 256],
    pub prices: [usize; 64],
}

// The most that any plan on this line earns. The price of each cell goes to its place in `prices`.
pub fn best_earnings(line: &Columns, place: &[usize; 128], prices: &mut [usize; 64]) -> usize
    requires line_columns { LineLent line.now }
    requires one_to_one { OneToOne (length line.now.limits.now) place.now prices.old }
    ensures value { (w : LineLent line.now) → result ≡ best w.book }
    ensures low_prices { LowPrices prices.old → LowPrices prices.new }
{
    let mut set = plan_row::BLANK;
    plan_row::solve(line, &mut set);
    plan_row::price(line.limits.len(), &set.dist, place, prices);
    entries::sum_kept(&set.kept, line.profit).earned
}

// A best plan on this line, or the request for which no channel was left (refusal 15, which is proved never to happen).
pub fn plan_line(line: &Columns, channels: usize) -> Result<LinePlan, NoneLeft>
    requires { PlannableLine channels line.now }
    ensures { (w : PlannableLine channels line.now) → IsOkAnd result (LinePlanned w.columns.book) }
{
    let cells = line.limits.len();
    let count = line.a.len();
    let mut channel = [0usize; 256];
    let mut entries = [0usize; 256];
    let mut place = [0usize; 128];
    let mut prices = [0usize; 64];
    let mut set = plan_row::BLANK;
    plan_row::solve(line, &mut set);
    plan_channels::hand_out(
        cells,
        channels,
        &set.row.lo[..count],
        &set.row.hi[..count],
        &set.kept[..count],
        &mut channel,
    )?;
    entries::enter(line, &set.kept, &channel, &mut entries);
    // cell j is span j, so its price goes to place j
    base_lists::by_number(cells, &mut place);
    plan_row::price(cells, &set.dist, &place, &mut prices[..cells]);
    let totals = entries::sum_kept(&set.kept, line.profit);
    Ok(LinePlan {
        earned: totals.earned,
        number: totals.number,
        entries,
        prices,
    })
}
