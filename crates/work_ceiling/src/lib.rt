// The ceiling of a price list on a line (document 01, "Prices and the checker"), by columns of numbers. No ceiling passes
// 63 × 96 × 1,000,000 for the spans and 256 × 1,000,000 for the requests, together 6,304,000,000.
#![tactic(auto)]

ghost use Rattle.std.specs.Prelude.{◌≡◌, ◌-◌, ◌≤◌, ◌<◌, length, min, max};
ghost use Rattle.base_sums.specs.Sums.{Σ};
ghost use Rattle.paper_book.specs.Columns.{at};
ghost use Rattle.paper_rules.specs.Prices.{ceiling};
ghost use Rattle.work_ceiling.specs.Lent.{PricedColumns};
ghost use Rattle.work_ceiling.specs.Tolls.{Payable, Tolled};
ghost use Rattle.work_ceiling.specs.Surplus.{gain_at, CanSum};

use base_columns::Columns;

// The sum over spans of limit × price. On the way toll[v] becomes what the spans below node v cost together.
fn rent(limits: &[usize], prices: &[usize; 64], toll: &mut [usize; 64]) -> usize
    requires { Payable (length limits.now) limits.now prices.now }
    ensures { Tolled (length limits.now) limits.now (at prices.now) toll.new result }
{
    toll[0] = 0;
    let mut sum = 0;
    let mut rented = 0;
    for (s, limit) in limits.iter().enumerate() {
        let price = prices[s];
        sum += price;
        rented += *limit * price;
        toll[s + 1] = sum;
    }
    rented
}

// The sum of prices on the spans between two nodes.
fn fare_of(a: usize, b: usize, toll: &[usize; 64]) -> usize
    requires { (a < 64) × (b < 64) × (at toll.now (min a b) ≤ at toll.now (max a b)) }
    ensures { result ≡ at toll.now (max a b) - at toll.now (min a b) }
{
    toll[a.max(b)] - toll[a.min(b)]
}

// What all requests, kept or not, have above the prices they cross.
fn surplus(columns: &Columns, toll: &[usize; 64]) -> usize
    requires { CanSum (length columns.now.a.now) columns.now.a.now columns.now.b.now columns.now.profit.now toll.now }
    ensures { result ≡ Σ (length columns.now.a.now) (gain_at columns.now.a.now columns.now.b.now columns.now.profit.now toll.now) }
{
    let mut sum = 0;
    for i in 0..columns.a.len() {
        let fare = fare_of(columns.a[i], columns.b[i], toll);
        sum += columns.profit[i].saturating_sub(fare);
    }
    sum
}

// The ceiling of these prices, one for each span.
pub fn ceiling_of(columns: &Columns, prices: &[usize; 64]) -> usize
    requires { PricedColumns columns.now prices.now }
    ensures { (w : PricedColumns columns.now prices.now) → result ≡ ceiling w.book (at prices.now) }
{
    let mut toll = [0usize; 64];
    let rented = rent(columns.limits, prices, &mut toll);
    rented + surplus(columns, &toll)
}
