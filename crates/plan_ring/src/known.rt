// Prices known from the cuts planned so far, one for each span of the ring. Any prices bound what a cut's line can earn; those of another cut do it well.
ghost use Rattle.std.specs.Prelude.{◌≡◌, ◌-◌, ◌≤◌, ◌<◌, length};
ghost use Rattle.base_sums.specs.Filled.{Filled};
ghost use Rattle.paper_rules.specs.Best.{best};
ghost use Rattle.paper_rules.specs.Cuts.{span_at};
ghost use Rattle.plan_line.specs.Promise.{LineLent};
ghost use Rattle.plan_row.specs.Placing.{LowPrices};

use base_columns::Columns;

// The span of the ring for each place of the line which cut j leaves. (Not by `turn_limits`, which would have to be lent a list of the spans' own numbers.)
fn places(nodes: usize, j: usize, place: &mut [usize; 128])
    requires { (j < nodes) × (nodes ≤ 64) }
    ensures { Filled (span_at nodes j) (nodes - 1) place.new }
{
    for t in 0..nodes - 1 {
        place[t] = plan_turn::span_at(nodes, j, t);
    }
}

// Prices known so far: none is too high.
#[derive(Clone, Copy)]
pub struct Known {
    pub prices: [usize; 64],
    ghost low: { LowPrices prices },
}

impl Known {
    // The cut span, which is on no place of that line, gets the higher price of its two neighbours.
    fn bridge(&mut self, nodes: usize, j: usize)
        requires { (j < nodes) × (3 ≤ nodes) × (nodes ≤ 64) }
    {
        let after = self.prices[plan_turn::span_at(nodes, j, 0)];
        let before = self.prices[plan_turn::span_at(nodes, j, nodes - 2)];
        self.prices[j] = before.max(after);
    }

    // What the line which cut j leaves can earn, by its own columns. Its prices become the known ones.
    pub fn best_earnings(&mut self, j: usize, line: &Columns) -> usize
        requires line_columns { LineLent line.now }
        requires j_upto_spans { (j ≤ length line.now.limits.now) × (2 ≤ length line.now.limits.now) × (length line.now.limits.now ≤ 63) }
        ensures { (w : LineLent line.now) → result ≡ best w.book }
    {
        let nodes = line.limits.len() + 1;
        let mut place = [0usize; 128];
        places(nodes, j, &mut place);
        let earned = plan_line::best_earnings(line, &place, &mut self.prices);
        self.bridge(nodes, j);
        earned
    }
}
