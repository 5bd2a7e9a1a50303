// Reading the span records in turn.
ghost use Rattle.std.specs.Prelude.{◌≤◌};
ghost use Rattle.read_book.specs.Spans.{SpansRead};

use read_record::{Due, Record, Refusal, view};

// Reads so many span records, those after the network, each with a limit up to the network's channels: the limits, one a span.
pub fn read_spans(file: &[u8], channels: usize, spans: usize) -> Result<[usize; 64], Refusal>
    requires { spans ≤ 64 }
    ensures { SpansRead file.now channels spans result }
{
    let mut limits = [0usize; 64];
    for s in 0..spans {
        let reading = view::through_view(file, 1 + s, Due::Span { channels });
        // taken apart as document 01 names it
        let Ok(got) = reading else {
            return Err(reading.unwrap_err());
        };
        let Record::Span(span) = got else {
            unreachable!()
        };
        limits[s] = span.limit;
    }
    Ok(limits)
}
