// Reading the request records in turn, from the part of the file that follows the spans.
ghost use Rattle.std.specs.Prelude.{◌≡◌, ◌≤◌};
ghost use Rattle.read_book.specs.Says.{no_request};
ghost use Rattle.read_book.specs.Orders.{OrdersRead};

use read_record::{Due, Record, Refusal, Request, view};

// The requests: the first `count` of the list. (No heap: the list is as long as any book's.)
#[derive(Clone, Copy)]
pub struct Orders {
    pub count: usize,
    pub requests: [Request; 256],
}

// An entry that no request was read into.
fn no_request() -> Request
    ensures { result ≡ no_request }
{
    Request {
        number: 0,
        a: 0,
        b: 0,
        profit: 0,
    }
}

// Reads the records of the part, each of them a request of a network of so many nodes; `before` records stand before the part.
pub fn read_requests(part: &[u8], before: usize, nodes: usize) -> Result<Orders, Refusal>
    requires { before ≤ 65 }
    ensures { OrdersRead part.now before nodes result }
{
    let mut requests = [no_request(); 256];
    let count = part.len() / 16;
    for i in 0..count {
        let reading = view::through_view(part, i, Due::Request { before, nodes });
        // taken apart as document 01 names it
        let Ok(got) = reading else {
            return Err(reading.unwrap_err());
        };
        let Record::Request(request) = got else {
            unreachable!()
        };
        requests[i] = request;
    }
    Ok(Orders { count, requests })
}
