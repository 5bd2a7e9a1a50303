// The text of the printing program (document 01, "Books and figures"), written at the front of a lent buffer: the one line of a refusal, or a plan's first line
// and a line for each request. Each answers the length of the text, and leaves the buffer past it as it was.
#![tactic(auto)]

mod parts;
mod shown;

ghost use Rattle.std.specs.Prelude.{length};
ghost use Rattle.page_plan.specs.Promise.{PrintsRefusal, Printable};
ghost use Rattle.page_plan.specs.Asked.{PrintsShown};

use page_text::Page;
pub use shown::Shown;

// "refused N at P". Number and place stay two parameters: this crate stands on the definitions alone and does not know the reader's `Refusal`.
pub fn print_refusal(out: &mut [u8; 4096], number: usize, place: usize) -> usize
    ensures { PrintsRefusal number place out.old out.new result }
{
    let mut page = Page {
        out: &mut out[..],
        at: 0,
    };
    page.put_word(b"refused ");
    page.put_decimal(number);
    page.put_word(b" at ");
    page.put_number(place, b'\n');
    page.at
}

// Earnings, number kept and cut, and then each request with its way and channel. 256 requests end before the buffer does: specs/Room.antt counts.
pub fn print_plan(out: &mut [u8; 4096], plan: Shown) -> usize
    requires { Printable (length plan.a.now) plan.a.now plan.b.now plan.entries.now }
    ensures { PrintsShown plan.entry out.old out.new result }
{
    let mut page = Page {
        out: &mut out[..],
        at: 0,
    };
    parts::put_first(&mut page, &plan);
    parts::put_requests(&mut page, &plan);
    page.at
}
