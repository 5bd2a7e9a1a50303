// The arcs out of a node that has been settled, and the labels that they shorten.
ghost use Rattle.std.specs.Prelude.{◌≡◌, suc, ◌+◌, ◌≤◌, ◌<◌, get_or, set, pos, MatchOption};
ghost use Rattle.base_signed.specs.Parts.{up, dn};
ghost use Rattle.plan_insert.specs.State.{at, Relaxation, Lacks, Tried, Spreads, Nothing, UpDone, CellsDone, AllDone, DoneFrom, NoneDone, CanChoose, Chosen};

use crate::ground::{Ground, Side};

// The arcs of the cells, up and down, numbered past the 256 candidates as `law_flow` numbers them: an array of enums would be twice as big.
pub const UP: usize = 256;

pub const DOWN: usize = 257;

// What an arc of this cost lacks to lower its far end: never below 0.
fn length_left(cost: i64, near: i64, far: i64) -> usize
    requires { Lacks cost near far }
    ensures { result + (dn near + dn cost) ≡ dn far + up cost }
{
    (cost + near - far) as usize
}

// What a search writes: each node's label, with its arc and its origin, and the list, of `size` nodes: those that have a label and are not settled.
// (No heap: arrays, which a search writes again and again. Each arc asks the same of the node, whose label is the search's and whose place is the ground's.)
#[derive(Clone, Copy)]
pub struct Marks {
    pub label: [usize; 128],
    pub by: [usize; 128],
    pub from: [usize; 128],
    pub list: [usize; 128],
    pub size: usize,
}

impl Marks {
    ghost use Rattle.plan_insert.specs.Grounds.{ground_of};
    ghost use Rattle.plan_insert.specs.Least.{Taken};
    ghost use Rattle.plan_insert.specs.Lent.{stays, marks_of};

    // Puts node v at the end of the list. The list is never full, and no caller has to know that.
    fn enlist(&mut self, v: usize)
        ensures others { (self.new.label ≡ self.old.label) × (self.new.by ≡ self.old.by) × (self.new.from ≡ self.old.from) }
        ensures listed { self.old.size < 128 → (self.new.list ≡ set self.old.list self.old.size v) × (self.new.size ≡ suc self.old.size) }
    {
        if self.size < 128 {
            self.list[self.size] = v;
            self.size += 1;
        }
    }

    // Gives node v the label `way`, by `arc` from u, where that is shorter. Its first label puts v on the list.
    fn relax(&mut self, most: usize, v: usize, way: usize, u: usize, arc: usize)
        requires { v < 128 }
        ensures { Relaxation most (marks_of self.old) (marks_of self.new) v way u arc }
    {
        let old = self.label[v];
        if old <= way {
            return;
        }
        self.label[v] = way;
        self.by[v] = arc;
        self.from[v] = u;
        if most <= old {
            self.enlist(v);
        }
    }

    // Relaxes v along `arc`, an arc of this cost from u.
    fn try_arc(&mut self, dist: &[i64; 128], most: usize, cost: i64, u: usize, v: usize, arc: usize)
        requires u_bound { (u < 128) × (v < 128) × (at self.old.label u ≤ 1000000) }
        requires lacks { Lacks cost (get_or dist.now u (pos 0)) (get_or dist.now v (pos 0)) }
        ensures { Tried most cost (get_or dist.now u (pos 0)) (get_or dist.now v (pos 0)) (marks_of self.old) (marks_of self.new) u v arc }
    {
        let way = self.label[u] + length_left(cost, dist[u], dist[v]);
        self.relax(most, v, way, u, arc);
    }

    // The arc up the cell above u: it is always open. (Apart from `fall`, which has another test and another part of the promise: one function would ask twice which.)
    fn rise(&mut self, ground: &Ground, most: usize, u: usize)
        requires { (u ≤ ground.now.row.now.cells) × (at self.old.label u ≤ 1000000) }
        ensures { Spreads (ground_of ground.now) most Nothing UpDone u (marks_of self.old) (marks_of self.new) }
    {
        if u < ground.row.cells {
            self.try_arc(ground.dist, most, 0, u, u + 1, UP);
        }
    }

    // The arc down the cell below u: it is open where that cell has room.
    fn fall(&mut self, ground: &Ground, most: usize, u: usize)
        requires { (u ≤ ground.now.row.now.cells) × (at self.old.label u ≤ 1000000) }
        ensures { Spreads (ground_of ground.now) most UpDone CellsDone u (marks_of self.old) (marks_of self.new) }
    {
        if 0 < u && 0 < ground.room[u - 1] {
            self.try_arc(ground.dist, most, 0, u, u - 1, DOWN);
        }
    }

    // The arcs of one side out of u: along the dropped candidates from their first node, or back along the kept ones from their last.
    fn follow(&mut self, ground: &Ground, side: Side, most: usize, u: usize)
        requires { (u ≤ ground.now.row.now.cells) × (at self.old.label u ≤ 1000000) }
        ensures { Spreads (ground_of ground.now) most (NoneDone (stays side)) (DoneFrom (stays side) 0) u (marks_of self.old) (marks_of self.new) }
    {
        let chain = ground.chain(side);
        let far = ground.far(side);
        // along links: no index is counted
        let mut i = chain.head[u];
        while 0 < i {
            let e = i - 1;
            self.try_arc(
                ground.dist,
                most,
                side.cost_along(ground.row.cost[e]),
                u,
                far[e],
                e,
            );
            i = chain.next[e];
        }
    }

    // All arcs out of u.
    pub fn spread(&mut self, ground: &Ground, most: usize, u: usize)
        requires { (u ≤ ground.now.row.now.cells) × (at self.old.label u ≤ 1000000) }
        ensures { Spreads (ground_of ground.now) most Nothing AllDone u (marks_of self.old) (marks_of self.new) }
    {
        self.rise(ground, most, u);
        self.fall(ground, most, u);
        self.follow(ground, Side::Dropped, most, u);
        self.follow(ground, Side::Held, most, u);
    }

    // Where on the list a node with the least label is: looked for from the end, and no further than a label that is as low as any can be.
    fn nearest(&self, floor: usize) -> usize
        requires { CanChoose self.now.label self.now.list self.now.size floor }
        ensures { Chosen self.now.label self.now.list self.now.size result }
    {
        let mut best = self.size - 1;
        let mut least = self.label[self.list[best]];
        for i in (0..best).rev() {
            if least == floor {
                return best;
            }
            let far = self.label[self.list[i]];
            if far < least {
                best = i;
                least = far;
            }
        }
        best
    }

    // Takes a node with the least label off the list: none where it is empty. No label on it is below `floor`.
    pub fn take(&mut self, floor: usize) -> Option<usize>
        requires upto { self.old.size ≤ 128 }
        requires choice { 0 < self.old.size → CanChoose self.old.label self.old.list self.old.size floor }
        ensures { MatchOption result ((self.old.size ≡ 0) × (marks_of self.new ≡ marks_of self.old)) (λ u. Taken (marks_of self.old) (marks_of self.new) u) }
    {
        if self.size == 0 {
            return None;
        }
        let i = self.nearest(floor);
        let u = self.list[i];
        self.size -= 1;
        self.list[i] = self.list[self.size];
        Some(u)
    }
}
