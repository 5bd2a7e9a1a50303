// The planner of document 01 on any file: reads the book, plans its line or its ring, and answers with numbers. It writes nowhere: what is handed to the
// desk's lists or printed is made from its answer.
#![tactic(auto)]

ghost use Rattle.std.specs.Prelude.{◌≡◌, IsOkAnd};
ghost use Rattle.paper_book.specs.Book.{Book};
ghost use Rattle.work_columns.specs.Seam.{HeldColumns};
ghost use Rattle.plan_book.specs.Promise.{BookPlanned};
ghost use Rattle.plan_book.specs.Held.{Finds, beside};

use base_columns::Columns;
use plan_channels::NoneLeft;
use read_record::{Network, Refusal, Row, Shape};
use work_columns::RequestColumns;

// The plan of an accepted book: what it earns, how many are kept and its cut; the book's shape, its numbers of spans and requests and both ends of each
// request; an entry for each request and, on a line, a price for each span.
// (No heap: lists as long as any book's. A line's cut is 65,535 and a ring's prices are 0, as document 01 hands them back.)
#[derive(Clone, Copy)]
pub struct BookPlan {
    pub earned: usize,
    pub number: usize,
    pub cut: usize,
    pub shape: Shape,
    pub spans: usize,
    pub count: usize,
    pub a: [usize; 256],
    pub b: [usize; 256],
    pub entries: [usize; 256],
    pub prices: [usize; 64],
}

// (A book's plan without its columns.) What the planner of a line or of a ring finds: what its plan earns, how many it keeps, its cut, an entry for each request and, on a line, a price for each
// span.
#[derive(Clone, Copy)]
struct Found {
    earned: usize,
    number: usize,
    cut: usize,
    entries: [usize; 256],
    prices: [usize; 64],
}

// The plan of an accepted line, or of an accepted ring, which has no prices.
fn find(net: Network, columns: &Columns) -> Result<Found, NoneLeft>
    requires { (book : Book) × HeldColumns book net columns.now }
    ensures { (book : Book) → HeldColumns book net columns.now → IsOkAnd result (Finds book) }
{
    match net.shape {
        Shape::Line => {
            let plan = plan_line::plan_line(columns, net.channels)?;
            let entries = plan.entries;
            let prices = plan.prices;
            Ok(Found {
                earned: plan.earned,
                number: plan.number,
                cut: 65535,
                entries,
                prices,
            })
        }
        Shape::Ring => {
            let plan = plan_ring::plan_ring(columns, net.channels)?;
            let entries = plan.entries;
            let prices = [0usize; 64];
            Ok(Found {
                earned: plan.earned,
                number: plan.number,
                cut: plan.cut,
                entries,
                prices,
            })
        }
    }
}

// What was found, beside the book's own numbers. (Not inlined: its lists would lie on the stack while the book is planned.)
#[inline(never)]
fn assembled(
    net: Network,
    spans: usize,
    count: usize,
    cols: &RequestColumns,
    found: &Found,
) -> BookPlan
    ensures { result ≡ beside net spans count cols.now found.now }
{
    let a = cols.a;
    let b = cols.b;
    let entries = found.entries;
    let prices = found.prices;
    BookPlan {
        earned: found.earned,
        number: found.number,
        cut: found.cut,
        shape: net.shape,
        spans,
        count,
        a,
        b,
        entries,
        prices,
    }
}

// Plans the book for lists with this many places for entries and for prices, or says by which number and at which place it is refused.
pub fn plan_book(file: &[u8], entry_places: usize, price_places: usize) -> Result<BookPlan, Refusal>
    ensures { BookPlanned file.now entry_places price_places result }
{
    let taken = read_book::read_book(file)?;
    let net = taken.network;
    let count = taken.count;
    let spans = net.shape.spans_of(net.nodes);
    if net.shape.short(spans, count, entry_places, price_places) {
        return Err(Refusal {
            row: Row::Short,
            place: 0,
        });
    }
    let cols = work_columns::columns(&taken.requests, count);
    let columns = cols.lend(&taken.limits[..spans], count);
    match find(net, &columns) {
        Ok(found) => Ok(assembled(net, spans, count, &cols, &found)),
        // proved never to happen; not by From, since neither type is of this crate
        Err(none) => Err(Refusal {
            row: Row::NoChannel,
            place: none.request,
        }),
    }
}
