// The earnings of a plan against the ceiling of a price list (document 01, "Prices and the checker").
ghost use Rattle.std.specs.Prelude.{◌≡◌, length, eqb};
ghost use Rattle.base_sums.specs.Sums.{Σ};
ghost use Rattle.paper_book.specs.Bytes.{entry_in, price_in};
ghost use Rattle.paper_rules.specs.Plans.{earnings};
ghost use Rattle.paper_rules.specs.Prices.{ceiling};
ghost use Rattle.check_plan.specs.Totals.{CanEarn, earning};
ghost use Rattle.check_plan.specs.CanCheck.{CheckableColumns};

use crate::{Claim, places};

// What the plan earns.
fn earned(profits: &[usize], entries: &[u8]) -> usize
    requires { CanEarn (length profits.now) profits.now entries.now }
    ensures { result ≡ Σ (length profits.now) (earning profits.now (entry_in entries.now)) }
{
    let mut sum = 0;
    for (i, profit) in profits.iter().enumerate() {
        let entry = check_rules::entry_at(entries, i);
        sum += check_rules::where_kept(*profit, entry);
    }
    sum
}

impl<'a> Claim<'a> {
    // Whether the plan's earnings equal the ceiling of the prices.
    pub fn balanced(&self) -> bool
        requires { CheckableColumns self.now.columns.now self.now.entries.now self.now.prices.now }
        ensures { (w : CheckableColumns self.now.columns.now self.now.entries.now self.now.prices.now) → result ≡ eqb (earnings w.book (entry_in self.now.entries.now)) (ceiling w.book (price_in self.now.prices.now)) }
    {
        let list = places::price_list(self.columns.limits.len(), self.prices);
        let top = work_ceiling::ceiling_of(self.columns, &list);
        earned(self.columns.profit, self.entries) == top
    }
}
