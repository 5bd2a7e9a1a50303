// A book's numbers as columns that are lent: what the planner, the ceiling and the checker work on.
#![tactic(auto)]

ghost use Rattle.std.specs.Prelude.{◌≡◌, length};

// A limit for each span; and for each request both ends and the profit, so that these three are of one length. (Numbers, not records: document 01 names that form,
// and a cut's line has other ends and the ring's profits.)
#[derive(Clone, Copy)]
pub struct Columns<'a> {
    pub limits: &'a [usize],
    pub a: &'a [usize],
    pub b: &'a [usize],
    pub profit: &'a [usize],
    ghost b_even: { length b.now ≡ length a.now },
    ghost profit_even: { length profit.now ≡ length a.now },
}
