// Reading any order book (document 01, "Order book records" and "Refusals by number"): every byte list is accepted or refused with a fixed
// number and place. One pass, no copy of the file, nothing assumed of it.
#![tactic(auto)]

ghost use Rattle.read_book.specs.Says.{Reads};

use read_record::{Due, Network, Record, Refusal, Request, view};

mod requests;
mod spans;

// An accepted book: its network, a limit for each span and its requests, of which there are `count`. (Nothing may be allocated, so the lists are as
// long as any book's.)
#[derive(Clone, Copy)]
pub struct Taken {
    pub network: Network,
    pub limits: [usize; 64],
    pub count: usize,
    pub requests: [Request; 256],
}

// Reads a book, or says by which number and at which place it is refused. (Each record's answer is taken apart by let .. else: document 01 names that form.)
// (Not inlined: its lists would lie on the stack while its caller goes on.)
#[inline(never)]
pub fn read_book(file: &[u8]) -> Result<Taken, Refusal>
    ensures { Reads file.now result }
{
    let reading = view::through_view(file, 0, Due::Network);
    let Ok(got) = reading else {
        return Err(reading.unwrap_err());
    };
    let Record::Network(network) = got else {
        unreachable!()
    };
    let spans = network.shape.spans_of(network.nodes);
    let limits = spans::read_spans(file, network.channels, spans)?;
    let before = 1 + spans;
    let orders = requests::read_requests(&file[16 * before..], before, network.nodes)?;
    let requests = orders.requests;
    Ok(Taken {
        network,
        limits,
        count: orders.count,
        requests,
    })
}
