// One sweep along the line decides the spans, with a step for each request and each span: how many cross a span, and whether two of them have one channel.
ghost use Rattle.std.specs.Prelude.{◌≤◌, ◌<◌, length};
ghost use Rattle.base_sums.specs.At.{NumbersBelow};
ghost use Rattle.plan_channels.specs.Lists.{ListedByNode};
ghost use Rattle.check_rules.specs.Spans.{Decides, LaidUpward, CanSweep, WithinSpans, ApartSpans};
ghost use Rattle.check_rules.specs.Loads.{Tallied};
ghost use Rattle.check_rules.specs.Sweep.{Swept, Passed};

use crate::laid::Laid;
use base_columns::Columns;
use plan_channels::ByNode;

// Counts a column of nodes by node.
fn tally_up(nodes: &[usize], tally: &mut [usize; 64])
    requires numbers_below { NumbersBelow 64 (length nodes.now) nodes.now }
    requires tallied { Tallied 0 nodes.now tally.old }
    ensures { Tallied (length nodes.now) nodes.now tally.new }
{
    for v in nodes {
        tally[*v] += 1;
    }
}

impl Laid {
    // Whether no more cross a span than its limit. On the way from span to span those that begin at a node are added, and those that end there taken off.
    pub fn within_limits(&self, columns: &Columns) -> bool
        requires { (length columns.now.limits.now ≤ 64) × LaidUpward (length columns.now.a.now) self.now.lo self.now.hi }
        ensures { Decides result (WithinSpans (length columns.now.limits.now) columns.now.limits.now (length columns.now.a.now) self.now.lo self.now.hi) }
    {
        let limits = columns.limits;
        let count = columns.a.len();
        let mut begins = [0usize; 64];
        let mut ends = [0usize; 64];
        tally_up(&self.lo[..count], &mut begins);
        tally_up(&self.hi[..count], &mut ends);
        let mut load = 0;
        for s in 0..limits.len() {
            load = load + begins[s] - ends[s];
            if limits[s] < load {
                return false;
            }
        }
        true
    }

    // Whether none of those that begin at node v begins before the latest connection on its channel ends; then it is the latest. `ends` has those ends by
    // channel.
    fn apart_from(&self, v: usize, count: usize, lists: &ByNode, ends: &mut [usize; 256]) -> bool
        requires v_bound { (v < 128) × CanSweep count self.now.lo self.now.hi self.now.crossing self.now.channel }
        requires listed_by_node { ListedByNode count 0 self.now.lo self.now.crossing lists.now.first lists.now.after }
        requires swept { Swept count self.now.lo self.now.hi self.now.crossing self.now.channel ends.old v 0 }
        ensures { Passed v count self.now.lo self.now.hi self.now.crossing self.now.channel result ends.new }
    {
        // along links: no index is counted
        let mut i = lists.first[v];
        while i < count {
            let c = self.channel[i];
            if v < ends[c] {
                return false;
            }
            ends[c] = self.hi[i];
            i = lists.after[i];
        }
        true
    }

    // Whether no two that cross a span have one channel there.
    pub fn channels_apart(&self, columns: &Columns) -> bool
        requires { (length columns.now.limits.now ≤ 64) × CanSweep (length columns.now.a.now) self.now.lo self.now.hi self.now.crossing self.now.channel }
        ensures { Decides result (ApartSpans (length columns.now.limits.now) (length columns.now.a.now) self.now.lo self.now.hi self.now.channel) }
    {
        let count = columns.a.len();
        let lists = ByNode::of(&self.lo[..count], &self.crossing[..count]);
        let mut ends = [0usize; 256];
        for v in 0..columns.limits.len() {
            if !self.apart_from(v, count, &lists, &mut ends) {
                return false;
            }
        }
        true
    }
}
