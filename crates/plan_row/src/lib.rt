// A line's columns as a row, and the prices of its cells.
#![tactic(auto)]

ghost use Rattle.std.specs.Prelude.{◌≡◌, ◌-◌, ◌≤◌, min, length};
ghost use Rattle.base_sums.specs.At.{NumbersBelow, NumbersUpto};
ghost use Rattle.base_signed.specs.Parts.{dn};
ghost use Rattle.plan_row.specs.Steps.{Candidates, SolvableColumns, Solves, Falls, prices_of};
ghost use Rattle.plan_row.specs.Placing.{CanPrice, Placed};
ghost use Rattle.plan_row.specs.Reordered.{Arranged, PutBack};

use base_columns::Columns;
use plan_insert::Row;

// The requests as candidates of a row: each over the cells from its lower end up to its upper one, at a cost of minus its profit. (Here and in
// `arrange` the row is lent: one that is returned is copied twice, which cost about 1 in 100 of all instructions.)
fn lay(columns: &Columns, row: &mut Row)
    requires { NumbersUpto 1000000 (length columns.now.a.now) columns.now.profit.now }
    ensures cells { row.new.cells ≡ row.old.cells }
    ensures candidates { Candidates (length columns.now.a.now) columns.now.a.now columns.now.b.now columns.now.profit.now row.new.lo row.new.hi row.new.cost }
{
    let a = columns.a;
    let b = columns.b;
    for i in 0..columns.a.len() {
        row.lo[i] = a[i].min(b[i]);
        row.hi[i] = a[i].max(b[i]);
        row.cost[i] = -(columns.profit[i] as i64);
    }
}

// The candidates in the order in which they are inserted.
fn arrange(row: &Row, order: &[usize], arranged: &mut Row)
    requires few { length order.now ≤ 256 }
    requires numbers { NumbersBelow (length order.now) (length order.now) order.now }
    ensures cells { arranged.new.cells ≡ arranged.old.cells }
    ensures arranged { Arranged (length order.now) order.now row.now.lo row.now.hi row.now.cost arranged.new.lo arranged.new.hi arranged.new.cost }
{
    for (i, r) in order.iter().enumerate() {
        arranged.lo[i] = row.lo[*r];
        arranged.hi[i] = row.hi[*r];
        arranged.cost[i] = row.cost[*r];
    }
}

// Which requests are kept, by number: each one as the candidate at its place in the order.
fn put_back(place: &[usize], keeps: &[bool; 256], kept: &mut [bool; 256])
    requires few { length place.now ≤ 256 }
    requires numbers { NumbersBelow (length place.now) (length place.now) place.now }
    ensures { PutBack (length place.now) place.now keeps.now kept.new }
{
    for (r, p) in place.iter().enumerate() {
        kept[r] = keeps[*p];
    }
}

// A row's best set: the row with the requests laid on it, by number; `kept` says which requests are kept, and a cell's price is what `dist` falls by along it.
// (No heap: the lists are as long as any book's.)
#[derive(Clone, Copy)]
pub struct BestSet {
    pub row: Row,
    pub kept: [bool; 256],
    pub dist: [i64; 128],
}

// A set before it is found. (A constant: one that is put together where it is needed would lie on the stack twice.)
pub const BLANK: BestSet = BestSet {
    row: Row {
        cells: 0,
        lo: [0; 256],
        hi: [0; 256],
        cost: [0; 256],
    },
    kept: [false; 256],
    dist: [0; 128],
};

// Lays the requests on the row and finds its best set. They are inserted in an order that is likely to be quick: which of several best sets is found may depend on it, and the time.
// (The set is lent: one that is returned is copied twice, for every cut of a ring.)
pub fn solve(columns: &Columns, set: &mut BestSet)
    requires { SolvableColumns columns.now }
    ensures { Solves (length columns.now.limits.now) (length columns.now.a.now) columns.now.limits.now columns.now.a.now columns.now.b.now columns.now.profit.now set.new.row.lo set.new.row.hi set.new.kept set.new.dist }
{
    let cells = columns.limits.len();
    let count = columns.a.len();
    set.row.cells = cells;
    lay(columns, &mut set.row);
    let mut arranged = set.row;
    let mut room = [0; 128];
    base_lists::copy(cells, columns.limits, &mut room);
    let mut order = [0; 256];
    let mut place = [0; 256];
    plan_order::ordered(
        columns.limits,
        &set.row.lo[..count],
        &set.row.hi[..count],
        columns.profit,
        &mut order,
        &mut place,
    );
    arrange(&set.row, &order[..count], &mut arranged);
    let planned = plan_insert::plan_row(&arranged, count, &mut room);
    put_back(&place[..count], &planned.kept, &mut set.kept);
    let dist = planned.dist;
    set.dist = dist;
}

// The price of each cell, at its place: what the distance falls by along the cell, and no more than 1,000,000.
pub fn price(cells: usize, dist: &[i64; 128], place: &[usize; 128], prices: &mut [usize])
    requires { CanPrice cells dist.now place.now prices.old }
    ensures { Placed (prices_of dist.now) place.now cells prices.old prices.new }
{
    for j in 0..cells {
        prices[place[j]] = capped(dist[j], dist[j + 1]);
    }
}

// What the distance falls by, and no more than 1,000,000.
fn capped(near: i64, far: i64) -> usize
    requires { Falls near far }
    ensures { result ≡ min 1000000 (dn far - dn near) }
{
    let fall = (near - far) as usize;
    fall.min(1000000)
}
