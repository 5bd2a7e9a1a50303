// The accepted requests as columns of numbers: the seam between the reader and the planner and checker. The list of requests is lent.
#![tactic(auto)]

ghost use Rattle.std.specs.Prelude.{◌≡◌, ◌≤◌, take};
ghost use Rattle.work_columns.specs.Columned.{Columned, CanColumn};

use base_columns::Columns;
use read_record::Request;

// (Columns, not records: document 01 has the lent list of records read by few thin functions that pass numbers on. No heap: as long as any book's.)
#[derive(Clone, Copy)]
pub struct RequestColumns {
    pub a: [usize; 256],
    pub b: [usize; 256],
    pub profit: [usize; 256],
}

// Columns before any request is read into them.
const BLANK: RequestColumns = RequestColumns {
    a: [0; 256],
    b: [0; 256],
    profit: [0; 256],
};

// The columns of the first `count` requests of the lent list.
// (Not inlined: its lists would lie on the stack while its caller goes on.)
#[inline(never)]
pub fn columns(requests: &[Request], count: usize) -> RequestColumns
    requires { CanColumn requests.now count }
    ensures { Columned requests.now count result }
{
    let mut cols = BLANK;
    for i in 0..count {
        let q = requests[i];
        cols.a[i] = q.a;
        cols.b[i] = q.b;
        cols.profit[i] = q.profit;
    }
    cols
}

impl RequestColumns {
    // The first `count` requests' columns, lent, with a limit for each span.
    pub fn lend<'a>(&'a self, limits: &'a [usize], count: usize) -> Columns<'a>
        requires { count ≤ 256 }
        ensures limits { result.limits.now ≡ limits.now }
        ensures ends { (result.a.now ≡ take count self.now.a) × (result.b.now ≡ take count self.now.b) }
        ensures profit { result.profit.now ≡ take count self.now.profit }
    {
        Columns {
            limits,
            a: &self.a[..count],
            b: &self.b[..count],
            profit: &self.profit[..count],
        }
    }
}
