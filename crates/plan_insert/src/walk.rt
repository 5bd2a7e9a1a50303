// The walk back from a to b along the arcs of a search, each of which is flipped.
ghost use Rattle.std.specs.Prelude.{ℕ};
ghost use Rattle.law_row.specs.Row.{Row};
ghost use Rattle.plan_insert.specs.State.{at, flag, CanFlip, CanTurn, Flipped, TurnedRound, Chains};
ghost use Rattle.law_flow.specs.Balanced.{Balanced};

use crate::chains::Sides;
use crate::marks::{DOWN, UP};
use crate::search::Search;

impl Sides {
    ghost use Rattle.plan_insert.specs.Lent.{links_of, Walkable};

    // Flips the arcs from a back to b: a dropped candidate is kept and a kept one dropped, a cell passed upwards gains room and one passed downwards
    // loses it.
    pub fn walk_back(
        &mut self,
        kept: &mut [bool; 256],
        room: &mut [usize; 128],
        found: &Search,
        a: usize,
        b: usize,
    )
        requires { Walkable kept.old room.old self.old found.now a b }
        ensures balanced { (w : Walkable kept.old room.old self.old found.now a b) → Balanced w.row w.t (flag kept.new) (at room.new) w.N }
        ensures chains { (w : Walkable kept.old room.old self.old found.now a b) → Chains w.row.cells w.t w.row.lo w.row.hi kept.new (links_of self.new) }
    {
        // along arcs: no index is counted
        let mut v = a;
        while v != b {
            let u = found.marks.from[v];
            self.flip(kept, room, found.marks.by[v], u, v);
            v = u;
        }
    }

    // Flips one arc, from u to v.
    fn flip(
        &mut self,
        kept: &mut [bool; 256],
        room: &mut [usize; 128],
        e: usize,
        u: usize,
        v: usize,
    )
        requires { CanFlip kept.old room.old (links_of self.old) e u v }
        ensures { Flipped kept.old room.old (links_of self.old) kept.new room.new (links_of self.new) e u v }
    {
        match e {
            UP => room[u] += 1,
            DOWN => room[v] -= 1,
            _ => self.turn(kept, e, u, v),
        }
    }

    // Keeps candidate e where it was dropped and drops it where it was kept: it leaves the chain of u, where its arc starts, for that of v.
    fn turn(&mut self, kept: &mut [bool; 256], e: usize, u: usize, v: usize)
        requires { (row : Row) × (t : ℕ) × CanTurn row t kept.old (links_of self.old) e u v }
        ensures { TurnedRound kept.old (links_of self.old) kept.new (links_of self.new) e u v }
    {
        if kept[e] {
            kept[e] = false;
            self.held.pass(&mut self.dropped, e, u, v);
        } else {
            kept[e] = true;
            self.dropped.pass(&mut self.held, e, u, v);
        }
    }
}
