// Whether a plan obeys the rules (document 01, "Routes and a plan that obeys the rules"), on a line: first every entry by itself, then the number of those
// that cross each span, and the channels.
#![tactic(auto)]

ghost use Rattle.std.specs.Prelude.{◌≡◌, not, ◌+◌, ◌*◌, ◌≤◌, length, eqb};
ghost use Rattle.base_sums.specs.At.{NumbersBelow};
ghost use Rattle.base_sums.specs.Sums.{when};
ghost use Rattle.paper_book.specs.Book.{Book};
ghost use Rattle.paper_book.specs.Bytes.{entry_in};
ghost use Rattle.paper_rules.specs.Ways.{way_from};
ghost use Rattle.paper_rules.specs.Plans.{obeys};
ghost use Rattle.check_rules.specs.Drawn.{DrawnColumns};
ghost use Rattle.check_rules.specs.Entry.{formed_at};

mod laid;
mod sweep;

use base_columns::Columns;
use laid::Laid;

// Entry i of the lent list: two bytes, high byte first. (A price has four: check_plan's `price_at`, by another definition, so that one function for both says less.)
pub fn entry_at(entries: &[u8], i: usize) -> usize
    requires { 2 * i + 2 ≤ length entries.now }
    ensures { result ≡ entry_in entries.now i }
{
    read_record::bytes::two(entries, 2 * i)
}

// The way that exists from a to b. It stays a number: the paper's way is one (`way_from`), and all that is done with it is to compare an entry's byte.
fn way_of(a: usize, b: usize) -> usize
    ensures { result ≡ way_from a b }
{
    if a < b {
        return 1;
    }
    2
}

// Whether an entry by itself obeys the rules: it is 0, or has the way that exists from a to b and a channel from 1 to k.
fn formed(channels: usize, a: usize, b: usize, entry: usize) -> bool
    ensures { result ≡ formed_at channels a b entry }
{
    if entry == 0 {
        return true;
    }
    if entry / 256 != way_of(a, b) {
        return false;
    }
    let channel = entry % 256;
    if channel == 0 {
        return false;
    }
    channel <= channels
}

// A value that belongs to a request, such as an end or a profit, where its entry keeps it; else 0.
pub fn where_kept(value: usize, entry: usize) -> usize
    ensures { result ≡ when (not (eqb entry 0)) value }
{
    if entry == 0 {
        return 0;
    }
    value
}

// Whether the plan obeys the rules.
pub fn lawful(columns: &Columns, channels: usize, entries: &[u8]) -> bool
    requires spans_bound { (length columns.now.limits.now ≤ 64) × (2 * length columns.now.a.now ≤ length entries.now) }
    requires numbers_below { NumbersBelow 64 (length columns.now.a.now) columns.now.a.now × NumbersBelow 64 (length columns.now.a.now) columns.now.b.now }
    ensures { (book : Book) → DrawnColumns book columns.now → channels ≡ book.channels → result ≡ obeys book (entry_in entries.now) }
{
    let mut laid = Laid {
        lo: [0; 256],
        hi: [0; 256],
        crossing: [false; 256],
        channel: [0; 256],
    };
    if !laid.lay(columns, channels, entries) {
        return false;
    }
    laid.within_limits(columns) && laid.channels_apart(columns)
}
