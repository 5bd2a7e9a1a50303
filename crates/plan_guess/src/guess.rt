// Whether prices are worth guessing, and the guess. It is no best price list and need not be: it serves the order only. Nothing is promised but safety. (Figures
// found by trying: docs/BENCH.md.)
ghost use Rattle.std.specs.Prelude.{◌≤◌, ◌<◌, length};

use crate::bidders;
use crate::bidders::Bidder;
use crate::prices::Prices;
use crate::requests::Requests;
use crate::worth::Extremes;

// The greatest worth of a request at guessed prices, and the prices' ceiling, where it can be compared with what an order brings.
#[derive(Clone, Copy)]
pub struct Guess {
    pub top: usize,
    pub ceiling: Option<usize>,
}

// What all limits are together.
fn total(limits: &[usize]) -> usize {
    limits
        .iter()
        .fold(0usize, |sum, limit| sum.saturating_add(*limit))
}

// About how many spans the requests ask for together: every eighth counts for eight.
fn spans_asked(requests: &Requests) -> usize {
    let mut sum: usize = 0;
    for i in (0..requests.count()).step_by(8) {
        sum = sum.saturating_add(requests.hi[i].saturating_sub(requests.lo[i]));
    }
    sum.saturating_mul(8)
}

// Whether requests are of middling length on average: where all are short or most are long, the guess helps little.
fn middling(count: usize, asked: usize) -> bool
    requires { count ≤ 256 }
{
    5 * count <= asked && asked <= 40 * count
}

// Whether they ask for more than there is room for and for no more than fifteen times that, on spans that are much alike or by requests that are not too long.
// Where a span has no channel, what crosses it asks in vain, and the count says little.
fn contested(limits: &[usize], count: usize, asked: usize) -> bool
    requires { (length limits.now < 64) × (count ≤ 256) }
{
    let room = total(limits);
    if asked <= room || room < asked / 15 {
        return false;
    }
    let Some(least) = limits.iter().copied().min() else {
        return false;
    };
    0 < least && (asked <= 16 * count || room / (4 * limits.len() + 1) <= least)
}

// What is taken off every profit before it bids: most of the least one, where all are nearly equal.
fn flat_part(profits: Extremes) -> usize {
    let apart = profits.apart();
    if apart < profits.greatest / 8 {
        return profits.least.saturating_sub(apart / 16 + 1);
    }
    0
}

// Whether a ceiling can be compared with what an order brings: bids are whole profits, and spans have six channels or more on average. With fewer, filling by
// room alone leaves too much.
fn comparable(limits: &[usize], off: usize) -> bool
    requires { length limits.now < 64 }
{
    off == 0 && 6 * limits.len() <= total(limits)
}

// The worth of each request at guessed prices, the greatest, and the prices' ceiling; nothing where the prices cannot tell the requests apart.
fn at_prices(
    limits: &[usize],
    requests: &Requests,
    profits: Extremes,
    asked: usize,
    worths: &mut [usize; 256],
) -> Option<Guess>
    requires { length limits.now < 64 }
{
    let off = flat_part(profits);
    let slack = bidders::bid(profits.greatest, off) / 2;
    let mut all = [Bidder::NONE; 256];
    let bids = bidders::lay(requests, off, &mut all);
    let bidders = &all[..requests.count()];
    // what a price moves by at first: twice what a span brings on average
    let unit = bids.saturating_mul(2) / asked.max(1);
    let mut prices = Prices::start(limits, bidders, unit)?;
    prices.settle(bidders);
    let top = prices.surplus_all(bidders, slack, worths);
    if top == 0 {
        return None;
    }
    let ceiling = comparable(limits, off).then(|| prices.ceiling(bidders));
    Some(Guess { top, ceiling })
}

// The same for any row; nothing where it is not worth guessing.
pub fn weigh(
    limits: &[usize],
    requests: &Requests,
    profits: Extremes,
    worths: &mut [usize; 256],
) -> Option<Guess>
    requires { length limits.now < 64 }
{
    let count = requests.count();
    let asked = spans_asked(requests);
    let worthwhile = profits.least != profits.greatest
        && middling(count, asked)
        && contested(limits, count, asked);
    if !worthwhile {
        return None;
    }
    at_prices(limits, requests, profits, asked, worths)
}
