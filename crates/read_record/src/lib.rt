// One record of an order book (document 01, "Order book records" and "Refusals by number"): its fields are fetched and judged, and it is got or
// refused by the row of the table that it breaks. It is named by its number in the slice that it is read from.
#![tactic(auto)]

ghost use Rattle.std.specs.Prelude.{◌≡◌, ◌+◌, ◌*◌, ◌≤◌, ◌<◌, length};
ghost use Rattle.read_record.specs.Due.{MayStand, record_at};
ghost use Rattle.read_record.specs.Numbers.{number_of};
ghost use Rattle.read_record.specs.Records as R;

pub mod bytes;
mod judge;
mod shape;
pub mod shapes;
pub mod view;

pub use shape::Shape;

// The rows of document 01's table ("Refusals by number").
#[derive(Clone, Copy, Debug, PartialEq, Eq)]
pub enum Row {
    ByteCount = 1,
    Network = 2,
    Nodes = 3,
    Channels = 4,
    Span = 5,
    Mark = 6,
    Limit = 7,
    TooMany = 8,
    Request = 9,
    Ends = 10,
    Profit = 11,
    Short = 12,
    Price = 13,
    Ring = 14,
    NoChannel = 15,
}

impl Row {
    // The row's number.
    pub fn number(self) -> usize
        ensures { result ≡ number_of self }
    {
        self as usize
    }
}

// A refusal: the row of the table that is broken, and the place.
#[derive(Clone, Copy, Debug, PartialEq, Eq)]
pub struct Refusal {
    pub row: Row,
    pub place: usize,
}

// The fields of the three kinds of record.
#[derive(Clone, Copy, Debug, PartialEq, Eq)]
pub struct Network {
    pub shape: Shape,
    pub nodes: usize,
    pub channels: usize,
}

#[derive(Clone, Copy, Debug, PartialEq, Eq)]
pub struct Span {
    pub number: usize,
    pub limit: usize,
}

#[derive(Clone, Copy, Debug, PartialEq, Eq)]
pub struct Request {
    pub number: usize,
    pub a: usize,
    pub b: usize,
    pub profit: usize,
}

// A record is a network, a span or a request, and nothing else.
#[derive(Clone, Copy, Debug, PartialEq, Eq)]
pub enum Record {
    Network(Network),
    Span(Span),
    Request(Request),
}

// What is due at a record, with what it has to agree with; `before` records stand before the part that the requests are read from.
#[derive(Clone, Copy)]
pub enum Due {
    Network,
    Span { channels: usize },
    Request { before: usize, nodes: usize },
}

// The first six bytes of a record, laid out alike in all three kinds: two bytes and two numbers of two bytes.
#[derive(Clone, Copy)]
struct Head {
    kind: usize,
    mark: usize,
    first: usize,
    second: usize,
}

fn head_at(file: &[u8], at: usize) -> Head
    requires { at + 6 ≤ length file.now }
    ensures { result ≡ R.head_at file.now at }
{
    Head {
        kind: bytes::byte(file, at),
        mark: bytes::byte(file, at + 1),
        first: bytes::two(file, at + 2),
        second: bytes::two(file, at + 4),
    }
}

// A record that breaks a row is refused at its place. (By a match: a chain of map and map_err was tried, and its proof did not close.)
fn answer(judged: Result<(), Row>, place: usize, got: Record) -> Result<Record, Refusal>
    ensures { result ≡ R.answer judged place got }
{
    match judged {
        Ok(()) => Ok(got),
        Err(row) => Err(Refusal { row, place }),
    }
}

// The network, record 0, with the byte count, which is tested first.
fn network_at(file: &[u8]) -> Result<Record, Refusal>
    ensures { result ≡ R.network_record_at file.now }
{
    if judge::count_wrong(file.len()) {
        return Err(Refusal {
            row: Row::ByteCount,
            place: 0,
        });
    }
    let head = head_at(file, 0);
    let rest = bytes::blank(file, 6, 10);
    match judge::network(head.kind, head.mark, head.first, head.second, rest) {
        Ok(network) => Ok(Record::Network(network)),
        Err(row) => Err(Refusal { row, place: 0 }),
    }
}

// The span due at a record index, which may be missing.
fn span_at(file: &[u8], index: usize, channels: usize) -> Result<Record, Refusal>
    requires { (0 < index) × (index ≤ 64) }
    ensures { result ≡ R.span_record_at file.now index channels }
{
    if file.len() / 16 <= index {
        return Err(Refusal {
            row: Row::Span,
            place: index,
        });
    }
    let at = 16 * index;
    let head = head_at(file, at);
    let span = Span {
        number: head.first,
        limit: head.second,
    };
    let rest = bytes::blank(file, at + 6, 10);
    let judged = judge::span(index - 1, channels, head.kind, head.mark, span, rest);
    answer(judged, index, Record::Span(span))
}

// Request i of the part of the file that follows the spans; `before` records stand before the part.
fn request_at(part: &[u8], i: usize, before: usize, nodes: usize) -> Result<Record, Refusal>
    requires { (16 * i + 16 ≤ length part.now) × (before ≤ 65) }
    ensures { result ≡ R.request_record_at part.now i before nodes }
{
    let at = 16 * i;
    let head = head_at(part, at);
    let request = Request {
        number: head.first,
        a: head.second,
        b: bytes::two(part, at + 6),
        profit: bytes::four(part, at + 8),
    };
    // the last four bytes are all 0 exactly if their number is: one test in place of four, for every request
    let rest = bytes::four(part, at + 12) == 0;
    let judged = judge::request(i, nodes, head.kind, head.mark, request, rest);
    answer(judged, before + i, Record::Request(request))
}

// The record at a position of a slice, as what is due there.
fn record_at(src: &[u8], at: usize, due: Due) -> Result<Record, Refusal>
    requires { MayStand src.now at due }
    ensures { result ≡ record_at src.now at due }
{
    match due {
        Due::Network => network_at(src),
        Due::Span { channels } => span_at(src, at, channels),
        Due::Request { before, nodes } => request_at(src, at, before, nodes),
    }
}
