// What the printing of a plan is asked for.
ghost use Rattle.std.specs.Prelude.{◌≡◌, length};

// What is printed of a plan: its earnings, how many it keeps and its cut, which is not shown on a line; and for each request both ends and
// the entry.
#[derive(Clone, Copy)]
pub struct Shown<'a> {
    pub earned: usize,
    pub kept: usize,
    pub cut: Option<usize>,
    pub a: &'a [usize],
    pub b: &'a [usize],
    pub entries: &'a [usize],
    ghost b_even: { length b.now ≡ length a.now },
    ghost entries_even: { length entries.now ≡ length a.now },
}
