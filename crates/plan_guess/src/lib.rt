// An order in which requests are likely to be inserted quickly: by worth, the greatest first, or at guessed prices. It serves speed only: nothing is promised of it
// but safety, and crate `plan_order` tests it. What could grow too large saturates: no book's numbers come near that.
#![tactic(auto)]

ghost use Rattle.std.specs.Prelude.{◌≡◌, ◌≤◌, ◌<◌, length};

mod bidders;
mod buckets;
mod fill;
mod guess;
mod prices;
mod requests;
mod worth;

use crate::requests::Requests;
use crate::worth::Extremes;

// The order by the worth of each request by itself.
fn by_worth(requests: &Requests, profits: Extremes, order: &mut [usize; 256]) {
    let mut worths = [0usize; 256];
    let top = worth::weigh(requests, profits, &mut worths);
    buckets::sort(&worths[..requests.count()], top, order);
}

// The order by what each request has above guessed prices, where by room alone it brings more than the order that there is, or hardly less.
fn try_prices(limits: &[usize], requests: &Requests, profits: Extremes, order: &mut [usize; 256])
    requires { length limits.now < 64 }
{
    let mut worths = [0usize; 256];
    if let Some(guess) = guess::weigh(limits, requests, profits, &mut worths) {
        let mut other = [0usize; 256];
        let count = requests.count();
        buckets::sort(&worths[..count], guess.top, &mut other);
        fill::take_better(
            limits,
            requests,
            guess.ceiling,
            &other[..count],
            &mut order[..count],
        );
    }
}

// The order that is tried: by worth, or by guessed prices where many ask for the same spans and that brings more. Request i is over the cells lo[i] to
// hi[i] - 1 and brings profit[i].
pub fn proposed(
    limits: &[usize],
    lo: &[usize],
    hi: &[usize],
    profit: &[usize],
    order: &mut [usize; 256],
)
    requires even { (length hi.now ≡ length lo.now) × (length profit.now ≡ length lo.now) }
    requires few { length lo.now ≤ 256 }
{
    let requests = Requests { lo, hi, profit };
    let profits = Extremes::of(requests.profit);
    by_worth(&requests, profits, order);
    if limits.len() < 64 {
        try_prices(limits, &requests, profits, order);
    }
}
