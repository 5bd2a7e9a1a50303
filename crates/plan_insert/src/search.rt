// The search from node b for node a, nearest node first.
ghost use Rattle.std.specs.Prelude.{◌≤◌, ◌<◌};
ghost use Rattle.plan_insert.specs.State.{at, Searched, Fresh};

use crate::ground::Ground;
use crate::marks::Marks;

// What a search works with; what it held before plays no part. A settled node's rank says when that was, counted from 1, and an open one's is 0.
// (Numbers: `law_flow` counts the turns so.)
#[derive(Clone, Copy)]
pub struct Search {
    pub rank: [usize; 128],
    pub marks: Marks,
}

impl Search {
    ghost use Rattle.plan_insert.specs.Grounds.{ground_of};

    // Every node open, b at 0 and the others at `most`.
    fn start(&mut self, cells: usize, b: usize, most: usize)
        requires { (cells ≤ 127) × (b ≤ cells) }
        ensures { Fresh cells b most self.new.marks.label self.new.rank }
    {
        self.marks.label[..cells + 1].fill(most);
        self.rank[..cells + 1].fill(0);
        self.marks.label[b] = 0;
    }

    // Searches for a way from b to a that is shorter than `most`. True where there is one: then by and from lead back from a to b.
    // (A bool: what is found stands in the marks, which the walk back is lent.)
    pub fn find(&mut self, ground: &Ground, a: usize, b: usize, most: usize) -> bool
        requires { (a ≤ ground.now.row.now.cells) × (b ≤ ground.now.row.now.cells) × (0 < most) × (most ≤ 1000000) }
        ensures { Searched (ground_of ground.now) a b most self.new.marks.label self.new.rank self.new.marks.by self.new.marks.from result }
    {
        self.start(ground.row.cells, b, most);
        self.marks.list[0] = b;
        self.marks.size = 1;
        // the label of the last node settled
        let mut floor = 0;
        let mut clock = 1;
        // until the list is empty: no index is counted
        while let Some(u) = self.marks.take(floor) {
            self.rank[u] = clock;
            if u == a {
                return true;
            }
            self.marks.spread(ground, most, u);
            floor = self.marks.label[u];
            clock += 1;
        }
        false
    }
}
