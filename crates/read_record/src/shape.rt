// The shapes of a network (document 01, "What the desk plans"), and what a shape asks for.
ghost use Rattle.std.specs.Prelude.{◌≡◌};
ghost use Rattle.paper_book.specs.Book.{spans_of};
ghost use Rattle.paper_book.specs.Refusals as R;
ghost use Rattle.read_record.specs.Shapes.{code_of, Decodes};

use crate::Row;

// A line is 1 in a file, a ring 2.
#[derive(Clone, Copy, Debug, PartialEq, Eq)]
pub enum Shape {
    Line,
    Ring,
}

impl TryFrom<usize> for Shape {
    type Error = Row;

    ghost try_from_gives = { Decodes };

    fn try_from(code: usize) -> Result<Shape, Row> {
        match code {
            1 => Ok(Shape::Line),
            2 => Ok(Shape::Ring),
            _ => Err(Row::Network),
        }
    }
}

impl Shape {
    // The fewest nodes that it may have.
    pub fn fewest(self) -> usize
        ensures { result ≡ R.fewest (code_of self) }
    {
        match self {
            Shape::Line => 2,
            Shape::Ring => 3,
        }
    }

    // How many spans join so many nodes.
    pub fn spans_of(self, nodes: usize) -> usize
        ensures { result ≡ spans_of (code_of self) nodes }
    {
        match self {
            Shape::Line => nodes.saturating_sub(1),
            Shape::Ring => nodes,
        }
    }

    // Whether a list lent for the entries, or on a line for the prices, has too few places (refusal 12).
    pub fn short(self, spans: usize, count: usize, entry_places: usize, price_places: usize) -> bool
        ensures { result ≡ R.short_of (code_of self) spans count entry_places price_places }
    {
        if entry_places < count {
            return true;
        }
        match self {
            Shape::Line => price_places < spans,
            Shape::Ring => false,
        }
    }
}
