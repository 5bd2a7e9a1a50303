// A plan laid out in columns.
ghost use Rattle.std.specs.Prelude.{◌*◌, ◌≤◌, length};
ghost use Rattle.paper_book.specs.Bytes.{entry_in};
ghost use Rattle.check_rules.specs.Entry.{LayingPlan, Lays};

use crate::{entry_at, formed, where_kept};
use base_columns::Columns;

// (No heap: lists as long as any book's.)
// For each request where it begins, where it ends, whether it crosses a span at all, and its channel.
#[derive(Clone, Copy)]
pub struct Laid {
    pub lo: [usize; 256],
    pub hi: [usize; 256],
    pub crossing: [bool; 256],
    pub channel: [usize; 256],
}

impl Laid {
    // Lays the plan out. The answer is whether every entry by itself obeys the rules; at the first that does not it stops.
    // (No Option<Laid>: it would copy the columns, six kilobytes, on every check.)
    pub fn lay(&mut self, columns: &Columns, channels: usize, entries: &[u8]) -> bool
        requires count_bound { (length columns.now.a.now ≤ 256) × (2 * length columns.now.a.now ≤ length entries.now) }
        requires laying_plan { LayingPlan 0 columns.now.a.now columns.now.b.now (entry_in entries.now) self.old.lo self.old.hi self.old.crossing self.old.channel }
        ensures { Lays result channels (length columns.now.a.now) columns.now.a.now columns.now.b.now entries.now self.new.lo self.new.hi self.new.crossing self.new.channel }
    {
        let a = columns.a;
        let b = columns.b;
        for i in 0..a.len() {
            let entry = entry_at(entries, i);
            if !formed(channels, a[i], b[i], entry) {
                return false;
            }
            // one that is not kept begins and ends at node 0, so that it crosses no span
            let begins = where_kept(a[i].min(b[i]), entry);
            let ends = where_kept(a[i].max(b[i]), entry);
            self.lo[i] = begins;
            self.hi[i] = ends;
            self.crossing[i] = begins < ends;
            self.channel[i] = entry % 256;
        }
        true
    }
}
