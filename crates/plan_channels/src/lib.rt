// Channels for a kept set on a row, by the rule of document 01 ("What the planner hands back"): by first cell, then by number, each takes the lowest
// channel that no earlier one that shares a cell holds.
#![tactic(auto)]

ghost use Rattle.std.specs.Prelude.{Bool, List, ◌≡◌, ℕ, ◌≤◌, ◌<◌, length};
ghost use Rattle.base_sums.specs.At.{NumbersBelow};
ghost use Rattle.plan_channels.specs.HandOut.{CanHandOut, HandedOut};
ghost use Rattle.plan_channels.specs.Latest.{held_past, LowestFound};
ghost use Rattle.plan_channels.specs.Lists.{ListedByNode};
ghost use Rattle.plan_channels.specs.Stages.{Stage, NodeGiven};

// The kept one that finds none of the channels 1 to k left (refusal 15, which is proved never to happen).
#[derive(Clone, Copy, Debug, PartialEq, Eq)]
pub struct NoneLeft {
    pub request: usize,
}

// The lowest of the channels 1 to k whose latest connection ends no later than node `from`.
fn lowest_past(k: usize, ends: &[usize; 128], from: usize) -> Option<usize>
    requires { k ≤ 96 }
    ensures { LowestFound k (held_past ends.now from) result }
{
    (1..k + 1).find(|&c| ends[c] <= from)
}

// The kept ones by first node, in rising number: `first` leads to a node's first one, `after` from each to the next; their count and more is none.
// (No Option: `ListedByNode` is said of numbers, and a step that hands one out would have to be told the count each time.)
#[derive(Clone, Copy)]
pub struct ByNode {
    pub first: [usize; 128],
    pub after: [usize; 256],
}

impl ByNode {
    pub fn of(lo: &[usize], kept: &[bool]) -> ByNode
        requires numbers_below { NumbersBelow 128 (length lo.now) lo.now }
        requires kept_even { length kept.now ≡ length lo.now }
        ensures { ListedByNode (length lo.now) 0 lo.now kept.now result.first result.after }
    {
        // 256 leads to none: every number is below it
        let mut lists = ByNode {
            first: [256; 128],
            after: [0; 256],
        };
        // from the highest number down, so that each comes in front of the higher ones
        for e in (0..lo.len()).rev() {
            if kept[e] {
                let v = lo[e];
                lists.after[e] = lists.first[v];
                lists.first[v] = e;
            }
        }
        lists
    }

    // Gives those that begin at node v their channels, by number: it is the turn of node v, on a row of some number of cells, and then of v + 1.
    // Of each channel it remembers where the latest connection ends, and no more.
    fn give_from(
        &self,
        v: usize,
        k: usize,
        hi: &[usize],
        channel: &mut [usize; 256],
        ends: &mut [usize; 128],
    ) -> Result<(), NoneLeft>
        requires v_bound { v < 128 }
        requires by_index { (cells : ℕ) × (lo : List ℕ) × (kept : List Bool) × ListedByNode (length hi.now) 0 lo kept self.now.first self.now.after × Stage cells (length hi.now) k lo hi.now kept channel.old ends.old v 0 }
        ensures { (lo : List ℕ) (kept : List Bool) → ListedByNode (length hi.now) 0 lo kept self.now.first self.now.after → NodeGiven v (length hi.now) k lo hi.now kept channel.old ends.old result channel.new ends.new }
    {
        let mut i = self.first[v];
        // along links: no index is counted
        while i < hi.len() {
            let Some(c) = lowest_past(k, ends, v) else {
                return Err(NoneLeft { request: i });
            };
            channel[i] = c;
            ends[c] = hi[i];
            i = self.after[i];
        }
        Ok(())
    }
}

// Gives every kept one its channel, and every other one 0.
// (0, as document 01 has an entry that is not kept: an Option would be turned back at once.)
// (Not inlined: its lists would lie on the stack while its caller goes on.)
#[inline(never)]
pub fn hand_out(
    cells: usize,
    k: usize,
    lo: &[usize],
    hi: &[usize],
    kept: &[bool],
    channel: &mut [usize; 256],
) -> Result<(), NoneLeft>
    requires can { CanHandOut cells (length lo.now) k lo.now hi.now kept.now }
    requires even { (length hi.now ≡ length lo.now) × (length kept.now ≡ length lo.now) }
    ensures { HandedOut cells (length lo.now) k lo.now hi.now kept.now result channel.new }
{
    channel[..lo.len()].fill(0);
    let lists = ByNode::of(lo, kept);
    let mut ends = [0; 128];
    for v in 0..cells {
        lists.give_from(v, k, hi, channel, &mut ends)?;
    }
    Ok(())
}
