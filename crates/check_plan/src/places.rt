// The places of the lent list of prices (document 01, "What the desk plans"): a price is four bytes, high byte first.
ghost use Rattle.std.specs.Prelude.{◌≡◌, ◌+◌, ◌*◌, ◌≤◌, ◌<◌, length, ltb, MatchOption};
ghost use Rattle.base_sums.specs.Each.{first};
ghost use Rattle.base_sums.specs.Filled.{Filled};
ghost use Rattle.paper_book.specs.Bytes.{price_in};

// The price of span s.
pub fn price_at(prices: &[u8], s: usize) -> usize
    requires { 4 * s + 4 ≤ length prices.now }
    ensures { result ≡ price_in prices.now s }
{
    read_record::bytes::four(prices, 4 * s)
}

// The lowest span whose price is above 1,000,000 (refusal 13).
pub fn dear(prices: &[u8], spans: usize) -> Option<usize>
    requires { 4 * spans ≤ length prices.now }
    ensures { MatchOption result (first spans (λ s. ltb 1000000 (price_in prices.now s)) ≡ spans) (λ s. (s < spans) × (s ≡ first spans (λ t. ltb 1000000 (price_in prices.now t)))) }
{
    // (0..spans).find(..) was tried: its promise did not follow from the closure's
    for s in 0..spans {
        if 1000000 < price_at(prices, s) {
            return Some(s);
        }
    }
    None
}

// The prices of the spans as a list of numbers.
pub fn price_list(spans: usize, prices: &[u8]) -> [usize; 64]
    requires { (spans ≤ 64) × (4 * spans ≤ length prices.now) }
    ensures { Filled (price_in prices.now) spans result }
{
    let mut list = [0; 64];
    for (s, price) in list[..spans].iter_mut().enumerate() {
        *price = price_at(prices, s);
    }
    list
}
