// The distances before any candidate. A cell without room has its price from the start, as high as the dearest candidate's profit: what would cross it gains
// nothing, and no search is made for it. (`Below` is asked of three different lists, costs and distances: no type has them all.)
ghost use Rattle.std.specs.Prelude.{◌≡◌, ◌≤◌};
ghost use Rattle.base_signed.specs.Parts.{up, dn};
ghost use Rattle.plan_insert.specs.State.{Below, lowest, Fall, PastCell, Stepped};

use crate::Row;

// The lowest cost of a candidate: minus the dearest one's profit.
fn lowest_cost(count: usize, cost: &[i64; 256]) -> i64
    requires count_bound { count ≤ 256 }
    requires below { Below cost.now count 1000000 }
    ensures { Fall result }
{
    let mut low: i64 = 0;
    for c in &cost[..count] {
        low = low.min(*c);
    }
    low
}

// The distance past a cell: lower by `fall` where the cell has no room.
fn past(near: i64, room: usize, fall: i64) -> i64
    requires { (up near ≡ 0) × (dn near ≤ lowest) × Fall fall }
    ensures { PastCell near room result }
{
    if room == 0 {
        return near + fall;
    }
    near
}

// Every node's distance: 0 at the first, and lower by `fall` past each cell without room.
fn lay(dist: &mut [i64; 128], room: &[usize; 128], cells: usize, fall: i64)
    requires { (cells ≤ 127) × Fall fall }
    ensures { Stepped cells room.now dist.new }
{
    dist[0] = 0;
    for j in 0..cells {
        dist[j + 1] = past(dist[j], room[j], fall);
    }
}

// The same, with the dearest candidate's cost as the fall.
pub fn begin(row: &Row, count: usize, room: &[usize; 128], dist: &mut [i64; 128])
    requires cells_bound { (row.now.cells ≤ 127) × (count ≤ 256) }
    requires below { Below row.now.cost count 1000000 }
    ensures { Stepped row.now.cells room.now dist.new }
{
    let fall = lowest_cost(count, &row.cost);
    lay(dist, room, row.cells, fall);
}
