// What the shape with this number in a file asks for, for a caller that has a number and no `Shape`: the type's methods answer where there is such a shape.
ghost use Rattle.std.specs.Prelude.{◌≡◌};
ghost use Rattle.paper_book.specs.Book.{spans_of};
ghost use Rattle.paper_book.specs.Refusals as R;

use crate::shape::Shape;

// Whether there is such a shape.
pub fn known(shape: usize) -> bool
    ensures { result ≡ R.known shape }
{
    Shape::try_from(shape).is_ok()
}

// The fewest nodes that it may have.
pub fn fewest(shape: usize) -> usize
    ensures { result ≡ R.fewest shape }
{
    match Shape::try_from(shape) {
        Ok(known) => known.fewest(),
        Err(_) => 2,
    }
}

// How many spans join so many nodes.
pub fn spans_of(shape: usize, nodes: usize) -> usize
    ensures { result ≡ spans_of shape nodes }
{
    match Shape::try_from(shape) {
        Ok(known) => known.spans_of(nodes),
        Err(_) => nodes.saturating_sub(1),
    }
}

// Whether a list lent for the entries, or on a line for the prices, has too few places (refusal 12).
pub fn short(
    shape: usize,
    spans: usize,
    count: usize,
    entry_places: usize,
    price_places: usize,
) -> bool
    ensures { result ≡ R.short_of shape spans count entry_places price_places }
{
    match Shape::try_from(shape) {
        Ok(known) => known.short(spans, count, entry_places, price_places),
        Err(_) => entry_places < count,
    }
}
