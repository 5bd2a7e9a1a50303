// The worth of a request by itself: what it brings for the room that it takes.
ghost use Rattle.std.specs.Prelude.{◌≤◌};

use crate::requests::Requests;

// The least and the greatest of the profits. (Both in one pass: `min` and `max` of an iterator take one each.)
#[derive(Clone, Copy)]
pub struct Extremes {
    pub least: usize,
    pub greatest: usize,
}

impl Extremes {
    pub fn of(profits: &[usize]) -> Extremes {
        let mut least = usize::MAX;
        let mut greatest = 0;
        for profit in profits {
            least = least.min(*profit);
            greatest = greatest.max(*profit);
        }
        Extremes { least, greatest }
    }

    // How far they lie apart.
    pub fn apart(&self) -> usize {
        self.greatest.saturating_sub(self.least)
    }
}

// What a request of this length counts for: nearly 64 parts in 64 + length, of 16384, by a curve that needs no division. From 76 on it falls no more.
fn weight(length: usize) -> usize
    ensures { result ≤ 32768 }
{
    if 76 < length {
        return 8062;
    }
    16384 + 11 * length * length / 8 - 214 * length
}

// The worth of each request, and the greatest: what it brings above the least for the room that it takes. A longer one is worth less; and every one is given a
// part above the least, so that a length counts with that one too. (Figures found by trying: docs/BENCH.md.)
// The worths are lent: handed back with the greatest in a struct they were copied, and an order took a tenth more instructions (tried and slower).
pub fn weigh(requests: &Requests, profits: Extremes, worths: &mut [usize; 256]) -> usize {
    let lift = profits.apart() / 16 + 1;
    let mut top = 0;
    for (i, profit) in requests.profit.iter().enumerate() {
        let brings = profit.saturating_sub(profits.least).saturating_add(lift);
        let length = requests.hi[i].saturating_sub(requests.lo[i]);
        let worth = brings.saturating_mul(weight(length)) / 128;
        worths[i] = worth;
        top = worth.max(top);
    }
    top
}
