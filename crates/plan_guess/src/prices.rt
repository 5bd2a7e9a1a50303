// Prices while they are guessed. Round after round the price of a span that more requests ask for than its limit goes up and that of a span with room left goes
// down, in ever smaller steps; a request asks for its spans as long as it bids more than they cost.
ghost use Rattle.std.specs.Prelude.{◌<◌, length};

use crate::bidders::Bidder;

// How many of those who ask begin and end at a node.
#[derive(Clone, Copy)]
struct Crossing {
    begins: usize,
    ends: usize,
}

impl Crossing {
    // The load of the span above the node, from that of the span below: those that end here go, those that begin come.
    fn load_after(&self, load: usize) -> usize {
        load.saturating_add(self.begins).saturating_sub(self.ends)
    }
}

// Where those begin and end who ask: they bid more than their spans cost. (The crossings are lent: handed back they were copied in every round, tried and slower.)
fn ask(bidders: &[Bidder], tolls: &[usize; 64], crossings: &mut [Crossing; 64]) {
    for bidder in bidders {
        if bidder.fare(tolls) < bidder.bid {
            let begins = &mut crossings[bidder.lo].begins;
            *begins = begins.saturating_add(1);
            let ends = &mut crossings[bidder.hi].ends;
            *ends = ends.saturating_add(1);
        }
    }
}

// The price of each span, in 64ths, and how far it moves for a request too many or too few; and the toll of each node, what the spans below it cost together.
// (No heap: lists as long as any row's.)
#[derive(Drop)]
pub struct Prices<'a> {
    limits: &'a [usize],
    prices: [usize; 64],
    rates: [usize; 64],
    tolls: [usize; 64],
    ghost few: { length limits.now < 64 },
}

impl<'a> Prices<'a> {
    // Prices that are nothing yet: a span's first step is `unit` where it would lose or gain all. None where fewer than eight spans are asked for by more than their
    // limit, or one is by all: it alone decides there, and worth tells as much as a price.
    pub fn start(limits: &'a [usize], bidders: &[Bidder], unit: usize) -> Option<Prices<'a>>
        requires { length limits.now < 64 }
    {
        let tolls = [0usize; 64];
        let mut crossings = [Crossing { begins: 0, ends: 0 }; 64];
        ask(bidders, &tolls, &mut crossings);
        let mut rates = [0usize; 64];
        let mut over: usize = 0;
        let mut load = 0;
        for (j, limit) in limits.iter().enumerate() {
            load = crossings[j].load_after(load);
            if bidders.len() <= load {
                return None;
            }
            rates[j] = unit / load.max(*limit).saturating_add(1);
            if *limit < load {
                over = over.saturating_add(1);
            }
        }
        if over < 8 {
            return None;
        }
        Some(Prices {
            limits,
            prices: [0; 64],
            rates,
            tolls,
        })
    }

    // One round: each price moves by its rate for each request too many, or too few, and the rate falls.
    fn step(&mut self, crossings: &[Crossing; 64]) {
        let mut toll: usize = 0;
        let mut load = 0;
        for (j, limit) in self.limits.iter().enumerate() {
            load = crossings[j].load_after(load);
            let rate = self.rates[j];
            let step = load.abs_diff(*limit).saturating_mul(rate);
            let price = if *limit < load {
                self.prices[j].saturating_add(step)
            } else {
                self.prices[j].saturating_sub(step)
            };
            self.prices[j] = price;
            self.rates[j] = rate.saturating_mul(225) / 256;
            toll = toll.saturating_add(price);
            self.tolls[j + 1] = toll;
        }
    }

    // Twenty rounds.
    pub fn settle(&mut self, bidders: &[Bidder]) {
        for _ in 0..20 {
            let mut crossings = [Crossing { begins: 0, ends: 0 }; 64];
            ask(bidders, &self.tolls, &mut crossings);
            self.step(&crossings);
        }
    }

    // The prices' ceiling: what all channels cost, and what the requests bid above that on their way.
    pub fn ceiling(&self, bidders: &[Bidder]) -> usize {
        let mut sum: usize = 0;
        for (j, limit) in self.limits.iter().enumerate() {
            sum = sum.saturating_add(limit.saturating_mul(self.prices[j]));
        }
        for bidder in bidders {
            sum = sum.saturating_add(bidder.bid.saturating_sub(bidder.fare(&self.tolls)));
        }
        sum / 64
    }

    // What each request has above its fare, with a part of the greatest bid added, so that a little below it still counts; and the greatest.
    pub fn surplus_all(
        &self,
        bidders: &[Bidder],
        slack: usize,
        worths: &mut [usize; 256],
    ) -> usize {
        let mut top = 0;
        for (bidder, worth) in bidders.iter().zip(worths.iter_mut()) {
            let fare = bidder.fare(&self.tolls);
            *worth = bidder.bid.saturating_add(slack).saturating_sub(fare) / 64;
            top = top.max(*worth);
        }
        top
    }
}
