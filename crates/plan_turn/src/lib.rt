// A ring's columns as those of the line which a cut leaves: nodes and spans counted from the node after the cut span.
#![tactic(auto)]

ghost use Rattle.std.specs.Prelude.{◌≡◌, ℕ, ◌+◌, ◌-◌, ◌≤◌, ◌<◌, length};
ghost use Rattle.paper_rules.specs.Cuts as C;
ghost use Rattle.base_sums.specs.Filled.{Filled};
ghost use Rattle.paper_book.specs.Columns.{at};
ghost use Rattle.plan_turn.specs.Nodes.{Nodes};
ghost use Rattle.plan_turn.specs.Lent.{Columns, CanTurn, CutTurned, CutLine};

use base_columns::Columns;

// How many spans there are from node u up to node v, passing from the last node to node 0. (By a test, as document 01 defines it; a remainder would be proved the same.)
fn steps(n: usize, u: usize, v: usize) -> usize
    requires { (v < n) × (u ≤ n) × (n ≤ 64) }
    ensures { result ≡ C.steps n u v }
{
    if u <= v {
        return v - u;
    }
    v + n - u
}

// The span at place t of the line which cut j leaves.
pub fn span_at(n: usize, j: usize, t: usize) -> usize
    requires { (j < n) × (t < n) × (n ≤ 64) }
    ensures { result ≡ C.span_at n j t }
{
    let s = j + 1 + t;
    if n <= s {
        return s - n;
    }
    s
}

// One end of each request, counted along the line which cut j leaves.
fn turn_ends(n: usize, j: usize, ends: &[usize], turned: &mut [usize; 256])
    requires { Nodes n j (length ends.now) ends.now }
    ensures { Filled (λ i. C.steps n (j + 1) (at ends.now i)) (length ends.now) turned.new }
{
    for (i, end) in ends.iter().enumerate() {
        turned[i] = steps(n, j + 1, *end);
    }
}

// The limits of a ring's n spans, or their prices, in the order of the line which cut j leaves.
pub fn turn_limits(n: usize, j: usize, limits: &[usize], turned: &mut [usize; 64])
    requires { (j < n) × (n ≤ 64) × (n ≤ length limits.now) }
    ensures { Filled (λ t. at limits.now (C.span_at n j t)) (n - 1) turned.new }
{
    for t in 0..n - 1 {
        turned[t] = limits[span_at(n, j, t)];
    }
}

// A ring's limits and ends along the line which a cut leaves: the first places of each, as many as the line has spans and requests. (No heap: as long as any ring's.)
#[derive(Clone, Copy)]
pub struct CutColumns {
    pub limits: [usize; 64],
    pub a: [usize; 256],
    pub b: [usize; 256],
}

// Columns that no ring has been turned into yet.
pub const BLANK: CutColumns = CutColumns {
    limits: [0; 64],
    a: [0; 256],
    b: [0; 256],
};

// The limits and both ends of each request, along the line which cut j leaves. (Lent to be filled: handed back, they would be copied for every cut.)
pub fn turn_columns(ring: &Columns, j: usize, turned: &mut CutColumns)
    requires { CanTurn ring.now j }
    ensures { CutTurned ring.now j turned.new }
{
    let n = ring.limits.len();
    turn_limits(n, j, ring.limits, &mut turned.limits);
    turn_ends(n, j, ring.a, &mut turned.a);
    turn_ends(n, j, ring.b, &mut turned.b);
}

impl CutColumns {
    // The columns of that line, of so many spans; the profits are the ring's. (Apart from the lending of a book's own columns, which promises another thing.)
    pub fn along<'a>(&'a self, spans: usize, profit: &'a [usize]) -> Columns<'a>
        requires { (spans ≤ 64) × (length profit.now ≤ 256) }
        ensures { (ring : Columns) (j : ℕ) → length ring.limits.now - 1 ≡ spans → ring.profit.now ≡ profit.now → CutTurned ring j self.now → CutLine ring j result }
    {
        let count = profit.len();
        Columns {
            limits: &self.limits[..spans],
            a: &self.a[..count],
            b: &self.b[..count],
            profit,
        }
    }
}
