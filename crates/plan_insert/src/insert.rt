// Inserting one candidate, and what goes with it.
ghost use Rattle.std.specs.Prelude.{◌≡◌, suc, ◌+◌, ◌-◌, ◌≤◌};
ghost use Rattle.base_signed.specs.Parts.{dn};
ghost use Rattle.plan_insert.specs.State.{Below, Deepened, Gains, lowest};

use crate::chains::Sides;
use crate::ground::{Ground, Side};
use crate::search::Search;
use crate::{Planned, Row};

// What a candidate of this cost, between nodes at these distances, would gain: 0 where it is worth no more than its cells' prices.
fn gain_of(cost: i64, near: i64, far: i64) -> usize
    requires { Gains cost near far }
    ensures { result ≡ dn near + dn cost - dn far }
{
    (far - near - cost).max(0) as usize
}

// Lowers the distance of every node whose label is below `to` by what it lacks.
fn deepen(dist: &mut [i64; 128], label: &[usize; 128], cells: usize, to: usize)
    requires cells_bound { (cells ≤ 127) × (to ≤ 1000000) }
    requires below { Below dist.old (suc cells) lowest }
    ensures { Deepened cells to label.now dist.old dist.new }
{
    for v in 0..cells + 1 {
        dist[v] -= to.saturating_sub(label[v]) as i64;
    }
}

// What planning a row keeps for itself from one insertion to the next, and what each search writes, made once.
#[derive(Clone, Copy)]
pub struct Planner {
    pub chains: Sides,
    pub search: Search,
}

impl Planner {
    ghost use Rattle.plan_insert.specs.Lent.{Linked, Insertable, Stands};

    // Inserts candidate t.
    pub fn insert(&mut self, row: &Row, t: usize, planned: &mut Planned, room: &mut [usize; 128])
        requires { Insertable row.now t planned.old.kept room.old planned.old.dist self.old.chains }
        ensures standing { (w : Insertable row.now t planned.old.kept room.old planned.old.dist self.old.chains) → Stands w.limit w.count row.now (suc t) planned.new.kept room.new planned.new.dist }
        ensures chains { Linked row.now (suc t) planned.new.kept self.new.chains }
    {
        let a = row.lo[t];
        let b = row.hi[t];
        let gain = gain_of(row.cost[t], planned.dist[a], planned.dist[b]);
        if gain == 0 {
            self.chains.enter(row, &mut planned.kept, t, Side::Dropped);
            return;
        }
        if base_lists::room_between(room, a, b) {
            base_lists::take_room(room, a, b);
            self.chains.enter(row, &mut planned.kept, t, Side::Held);
            return;
        }
        let ground = Ground {
            row,
            t,
            kept: &planned.kept,
            room,
            dist: &planned.dist,
            chains: &self.chains,
        };
        if self.search.find(&ground, a, b, gain) {
            let near = self.search.marks.label[a];
            deepen(&mut planned.dist, &self.search.marks.label, row.cells, near);
            self.chains.enter(row, &mut planned.kept, t, Side::Held);
            self.chains
                .walk_back(&mut planned.kept, room, &self.search, a, b);
            return;
        }
        deepen(&mut planned.dist, &self.search.marks.label, row.cells, gain);
        self.chains.enter(row, &mut planned.kept, t, Side::Dropped);
    }
}
