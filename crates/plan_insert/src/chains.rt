// The chains that a search follows: the dropped candidates by their first node, the kept ones by their last, each chain by falling number.
ghost use Rattle.std.specs.Prelude.{◌≡◌, suc, ◌≤◌, ◌<◌, set};
ghost use Rattle.plan_insert.specs.State.{at, Flagged};
ghost use Rattle.plan_insert.specs.Joining.{CanPutIn, CanTakeOut, Moved, CanFollow, Above};

use crate::Row;
use crate::ground::Side;

// Some candidates by one of their ends: head[v] is 1 past the latest one with its end at node v, next[j] 1 past the latest before j with
// the same end. The links are numbers in arrays, since nothing may allocate; 0 is none, since an array of options would be twice as big.
#[derive(Clone, Copy)]
pub struct Chain {
    pub head: [usize; 128],
    pub next: [usize; 256],
}

impl Chain {
    // The last link above e, from link j on.
    fn last_above(&self, j: usize, e: usize) -> usize
        requires { CanFollow self.now.next j e }
        ensures inside { result < 256 }
        ensures last { (w : CanFollow self.now.next j e) → Above (Flagged w.side w.t w.kept) w.ends self.now.next (w.ends j) e result }
    {
        // along links: no index is counted
        let mut k = j;
        while e + 1 < self.next[k] {
            k = self.next[k] - 1;
        }
        k
    }

    // Puts candidate e into the chain of node v. (This and `take_out` change the same link: lent, as `&mut self.head[v]`, it has no proof yet.)
    pub fn put_in(&mut self, v: usize, e: usize)
        requires { CanPutIn self.old.head self.old.next v e }
        ensures { (w : CanPutIn self.old.head self.old.next v e) → Moved w.0 self.new.head self.new.next }
    {
        let first = self.head[v];
        if first <= e {
            self.next[e] = first;
            self.head[v] = e + 1;
            return;
        }
        let j = self.last_above(first - 1, e);
        self.next[e] = self.next[j];
        self.next[j] = e + 1;
    }

    // Takes candidate e out of the chain of node v.
    fn take_out(&mut self, v: usize, e: usize)
        requires { CanTakeOut self.old.head self.old.next v e }
        ensures { (w : CanTakeOut self.old.head self.old.next v e) → Moved w.0 self.new.head self.new.next }
    {
        let first = self.head[v];
        let after = self.next[e];
        if first == e + 1 {
            self.head[v] = after;
            return;
        }
        let j = self.last_above(first - 1, e);
        self.next[j] = after;
    }

    // Candidate e leaves the chain of node u here for that of node v among the others.
    pub fn pass(&mut self, others: &mut Chain, e: usize, u: usize, v: usize)
        requires out { CanTakeOut self.old.head self.old.next u e }
        requires into { CanPutIn others.old.head others.old.next v e }
        ensures left { (w : CanTakeOut self.old.head self.old.next u e) → Moved w.0 self.new.head self.new.next }
        ensures joined { (w : CanPutIn others.old.head others.old.next v e) → Moved w.0 others.new.head others.new.next }
    {
        self.take_out(u, e);
        others.put_in(v, e);
    }
}

// Both chains: the dropped candidates by their first node, where arcs along them start, and the kept ones by their last, where arcs back do.
#[derive(Clone, Copy)]
pub struct Sides {
    pub dropped: Chain,
    pub held: Chain,
}

impl Sides {
    ghost use Rattle.plan_insert.specs.Lent.{stays, Linked};

    // Keeps or drops candidate t, a new one: it goes into the chain of its last node where it is kept, of its first where it is dropped.
    pub fn enter(&mut self, row: &Row, kept: &mut [bool; 256], t: usize, side: Side)
        requires ends { (row.now.cells ≤ 127) × (t < 256) × (at row.now.lo t ≤ row.now.cells) × (at row.now.hi t ≤ row.now.cells) }
        requires before { Linked row.now t kept.old self.old }
        ensures kept_after { kept.new ≡ set kept.old t (stays side) }
        ensures chained { Linked row.now (suc t) kept.new self.new }
    {
        match side {
            Side::Dropped => {
                kept[t] = false;
                self.dropped.put_in(row.lo[t], t);
            }
            Side::Held => {
                kept[t] = true;
                self.held.put_in(row.hi[t], t);
            }
        }
    }
}
