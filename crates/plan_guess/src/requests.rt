// The requests of a row by their columns.
ghost use Rattle.std.specs.Prelude.{◌≡◌, ◌≤◌, length};

// For each request where it begins and ends, and its profit.
// (The limits stand beside them, and are said to be few where prices are guessed: the worths need neither.)
#[derive(Clone, Copy)]
pub struct Requests<'a> {
    pub lo: &'a [usize],
    pub hi: &'a [usize],
    pub profit: &'a [usize],
    ghost few: { length profit.now ≤ 256 },
    ghost los: { length lo.now ≡ length profit.now },
    ghost his: { length hi.now ≡ length profit.now },
}

impl<'a> Requests<'a> {
    pub fn count(&self) -> usize
        ensures { result ≡ length self.now.profit.now }
    {
        self.profit.len()
    }
}
