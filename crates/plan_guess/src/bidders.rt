// The requests as bidders for their spans.
ghost use Rattle.std.specs.Prelude.{◌<◌};

use crate::requests::Requests;

// Where a request begins and ends, and what it bids for the spans between, in 64ths.
#[derive(Clone, Copy)]
pub struct Bidder {
    pub lo: usize,
    pub hi: usize,
    pub bid: usize,
    ghost begins: { lo < 64 },
    ghost ends: { hi < 64 },
}

impl Bidder {
    pub const NONE: Bidder = Bidder {
        lo: 0,
        hi: 0,
        bid: 0,
    };

    // What its spans cost together.
    pub fn fare(&self, tolls: &[usize; 64]) -> usize {
        tolls[self.hi].saturating_sub(tolls[self.lo])
    }
}

// What a profit bids.
pub fn bid(profit: usize, off: usize) -> usize {
    profit.saturating_sub(off).saturating_mul(64)
}

// Lays the bidders, and adds up what they bid. (They are lent: handed back in a struct they were copied, tried and slower.)
pub fn lay(requests: &Requests, off: usize, bidders: &mut [Bidder; 256]) -> usize {
    let mut sum: usize = 0;
    for (i, profit) in requests.profit.iter().enumerate() {
        let bid = bid(*profit, off);
        bidders[i] = Bidder {
            lo: requests.lo[i].min(63),
            hi: requests.hi[i].min(63),
            bid,
        };
        sum = sum.saturating_add(bid);
    }
    sum
}
