// Judging by numbers. The byte count of a file is row 1 of document 01. A record is judged by its fields: a test for each clause of rows 2 to 11, lowest
// row first; the answer is the row that the record breaks, where it breaks one. (Kind and mark stay numbers: the tests are about the file's bytes, and nobody
// is handed a kind past them. A judge is told field by field what its tests compare: no group of them travels further.)
ghost use Rattle.std.specs.Prelude.{◌≡◌};
ghost use Rattle.paper_book.specs.Refusals.{count_wrong};
ghost use Rattle.read_record.specs.Tests.{judged};
ghost use Rattle.read_record.specs.Judged as J;

use crate::{Network, Request, Row, Shape, Span};

// Row 1: the byte count is 0, not a multiple of 16, or above 5,136.
pub fn count_wrong(bytes: usize) -> bool
    ensures { result ≡ count_wrong bytes }
{
    if bytes == 0 {
        return true;
    }
    if bytes % 16 != 0 {
        return true;
    }
    5136 < bytes
}

pub fn network(
    kind: usize,
    shape: usize,
    nodes: usize,
    channels: usize,
    rest: bool,
) -> Result<Network, Row>
    ensures { J.NetworkJudged kind shape nodes channels rest result }
{
    if kind != 1 {
        return Err(Row::Network);
    }
    let shape = Shape::try_from(shape)?;
    if !rest {
        return Err(Row::Network);
    }
    if nodes < shape.fewest() {
        return Err(Row::Nodes);
    }
    if 64 < nodes {
        return Err(Row::Nodes);
    }
    if channels == 0 {
        return Err(Row::Channels);
    }
    if 96 < channels {
        return Err(Row::Channels);
    }
    Ok(Network {
        shape,
        nodes,
        channels,
    })
}

// The span numbered `due` of a network of so many channels.
pub fn span(
    due: usize,
    channels: usize,
    kind: usize,
    mark: usize,
    span: Span,
    rest: bool,
) -> Result<(), Row>
    ensures { result ≡ judged (J.span_tests due channels kind mark span rest) }
{
    if kind != 2 {
        return Err(Row::Span);
    }
    if span.number != due {
        return Err(Row::Span);
    }
    if !rest {
        return Err(Row::Span);
    }
    if mark != 1 {
        return Err(Row::Mark);
    }
    if channels < span.limit {
        return Err(Row::Limit);
    }
    Ok(())
}

// The request numbered `due` of a network of so many nodes.
pub fn request(
    due: usize,
    nodes: usize,
    kind: usize,
    mark: usize,
    q: Request,
    rest: bool,
) -> Result<(), Row>
    ensures { result ≡ judged (J.request_tests due nodes kind mark q rest) }
{
    if 255 < due {
        return Err(Row::TooMany);
    }
    if kind != 3 {
        return Err(Row::Request);
    }
    if mark != 0 {
        return Err(Row::Request);
    }
    if q.number != due {
        return Err(Row::Request);
    }
    if !rest {
        return Err(Row::Request);
    }
    if nodes <= q.a {
        return Err(Row::Ends);
    }
    if nodes <= q.b {
        return Err(Row::Ends);
    }
    if q.a == q.b {
        return Err(Row::Ends);
    }
    if q.profit == 0 {
        return Err(Row::Profit);
    }
    if 1000000 < q.profit {
        return Err(Row::Profit);
    }
    Ok(())
}
