// What an insertion and its search are given: the row with its candidates, and the flow after the first t of them.
ghost use Rattle.std.specs.Prelude.{◌≡◌, ◌≤◌};
ghost use Rattle.base_signed.specs.Parts.{up, dn};
ghost use Rattle.plan_insert.specs.State.{Ready, cost_along, ends_of};
ghost use Rattle.plan_insert.specs.Lent.{stays, OfSide, Linked};

use crate::Row;
use crate::chains::{Chain, Sides};

// The flow after the first t candidates, as a search finds it, with the chains that lead it to its arcs.
#[derive(Clone, Copy)]
pub struct Ground<'a> {
    pub row: &'a Row,
    pub t: usize,
    pub kept: &'a [bool; 256],
    pub room: &'a [usize; 128],
    pub dist: &'a [i64; 128],
    pub chains: &'a Sides,
    ghost ready: { Ready row.now.cells t row.now.lo row.now.hi row.now.cost kept.now room.now dist.now },
    ghost linked: { Linked row.now t kept.now chains.now },
}

impl Ground<'_> {
    // The chains of one side.
    pub fn chain(&self, side: Side) -> &Chain
        ensures { OfSide self.now.row.now self.now.t self.now.kept.now side result.now }
    {
        match side {
            Side::Dropped => &self.chains.dropped,
            Side::Held => &self.chains.held,
        }
    }

    // The nodes where the arcs of one side end.
    pub fn far(&self, side: Side) -> &[usize; 256]
        ensures { result.now ≡ ends_of (stays side) self.now.row.now.hi self.now.row.now.lo }
    {
        match side {
            Side::Dropped => &self.row.hi,
            Side::Held => &self.row.lo,
        }
    }
}

// An arc goes along a dropped candidate from its first node, or back along a kept one from its last.
#[derive(Clone, Copy, Debug, PartialEq, Eq)]
pub enum Side {
    Dropped,
    Held,
}

impl Side {
    // The cost of a candidate's arc: back along a kept one it counts the other way.
    pub fn cost_along(self, cost: i64) -> i64
        requires { (up cost ≤ 1000000) × (dn cost ≤ 1000000) }
        ensures { result ≡ cost_along (stays self) cost }
    {
        match self {
            Side::Dropped => cost,
            Side::Held => -cost,
        }
    }
}
