// The checker of anyone's plan (document 01, "Prices and the checker"): yes exactly when the plan obeys the rules and its earnings equal the
// ceiling of the prices. It writes nothing.
#![tactic(auto)]

ghost use Rattle.std.specs.Prelude.{◌≡◌};
ghost use Rattle.paper_book.specs.Book.{Book};
ghost use Rattle.paper_book.specs.Bytes.{entry_in, price_in};
ghost use Rattle.paper_rules.specs.Prices.{verdict};
ghost use Rattle.paper_rules.specs.Operations.{checking, checker};
ghost use Rattle.work_columns.specs.Seam.{HeldColumns};
ghost use Rattle.check_plan.specs.CanCheck.{CheckableColumns};
ghost use Rattle.check_plan.specs.Checked.{checked_of};

mod places;
mod totals;

use base_columns::Columns;
use read_record::{Network, Refusal, Row, Shape};

// What a plan that can be checked comes to.
#[derive(Clone, Copy, Debug, PartialEq, Eq)]
pub enum Verdict {
    Yes,
    No,
}

// What is checked: an accepted book's network and its columns, and the lent lists of entries and of prices. (The columns by value would have to be lent as long
// as the lists are.)
#[derive(Clone, Copy)]
struct Claim<'a> {
    network: Network,
    columns: &'a Columns<'a>,
    entries: &'a [u8],
    prices: &'a [u8],
}

impl<'a> Claim<'a> {
    // Whether the plan obeys the rules and its earnings equal the ceiling of the prices.
    fn weigh(&self) -> bool
        requires { CheckableColumns self.now.columns.now self.now.entries.now self.now.prices.now }
        ensures { (w : CheckableColumns self.now.columns.now self.now.entries.now self.now.prices.now) → self.now.network.channels ≡ w.book.channels → result ≡ verdict w.book (entry_in self.now.entries.now) (price_in self.now.prices.now) }
    {
        check_rules::lawful(self.columns, self.network.channels, self.entries) && self.balanced()
    }

    // 14 for a ring, then 12, then 13, and only then yes or no.
    fn check(&self) -> Result<Verdict, Refusal>
        requires { (book : Book) × HeldColumns book self.now.network self.now.columns.now }
        ensures { (book : Book) → HeldColumns book self.now.network self.now.columns.now → checked_of result ≡ checking book self.now.entries.now self.now.prices.now }
    {
        let shape = self.network.shape;
        if let Shape::Ring = shape {
            return Err(Refusal {
                row: Row::Ring,
                place: 0,
            });
        }
        let spans = self.columns.limits.len();
        let count = self.columns.a.len();
        if shape.short(spans, count, self.entries.len() / 2, self.prices.len() / 4) {
            return Err(Refusal {
                row: Row::Short,
                place: 0,
            });
        }
        if let Some(place) = places::dear(self.prices, spans) {
            return Err(Refusal {
                row: Row::Price,
                place,
            });
        }
        if self.weigh() {
            return Ok(Verdict::Yes);
        }
        Ok(Verdict::No)
    }
}

// Checks a plan: the entries, two bytes each, against the prices, four bytes each, for the book in the file. The book's own refusals come first.
pub fn check_plan(file: &[u8], entries: &[u8], prices: &[u8]) -> Result<Verdict, Refusal>
    ensures { checked_of result ≡ checker file.now entries.now prices.now }
{
    let taken = read_book::read_book(file)?;
    let network = taken.network;
    let spans = network.shape.spans_of(network.nodes);
    let cols = work_columns::columns(&taken.requests, taken.count);
    let limits = &taken.limits[..spans];
    let columns = cols.lend(limits, taken.count);
    let claim = Claim {
        network,
        columns: &columns,
        entries,
        prices,
    };
    claim.check()
}
