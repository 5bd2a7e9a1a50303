// The lines of a printed plan.
ghost use Rattle.std.specs.Prelude.{◌≡◌, ◌+◌, ◌/◌, ◌%◌, ◌≤◌, ◌<◌, length, is_none, unwrap_or};
ghost use Rattle.page_text.specs.Put.{Put};
ghost use Rattle.paper_book.specs.Columns.{at};
ghost use Rattle.page_plan.specs.Printed.{first_line};
ghost use Rattle.page_plan.specs.Columns.{line_at};
ghost use Rattle.page_plan.specs.Promise.{Printable};
ghost use Rattle.page_plan.specs.Room.{FirstRoom, RequestRoom, lines_room};
ghost use Rattle.page_plan.specs.Parts.{Printing};

use crate::Shown;
use page_text::Page;

// Earnings, number kept and cut. (Where none is shown the clauses have a line's, which is 65535 in 01.)
pub fn put_first(page: &mut Page, plan: &Shown)
    requires { FirstRoom page.old.out.now page.old.at plan.now.earned plan.now.kept (unwrap_or plan.now.cut 65535) }
    ensures same_buffer { page.new.out.ghost_name ≡ page.old.out.ghost_name }
    ensures put { Put page.old.out.now page.new.out.now page.old.at
        (first_line (is_none plan.now.cut) plan.now.earned plan.now.kept (unwrap_or plan.now.cut 65535))
        page.new.at }
{
    page.put_word(b"profit ");
    page.put_decimal(plan.earned);
    page.put_word(b" kept ");
    page.put_decimal(plan.kept);
    page.put_word(b" cut ");
    match plan.cut {
        None => page.put_word(b"none\n"),
        Some(cut) => page.put_number(cut, b'\n'),
    }
}

// The number of request i, its a, b, way and channel.
fn put_request(page: &mut Page, plan: &Shown, i: usize)
    requires there { i < length plan.now.a.now }
    requires room { RequestRoom page.old.out.now page.old.at i
        (at plan.now.a.now i) (at plan.now.b.now i) (at plan.now.entries.now i / 256) (at plan.now.entries.now i % 256) }
    ensures same_buffer { page.new.out.ghost_name ≡ page.old.out.ghost_name }
    ensures put { Put page.old.out.now page.new.out.now page.old.at (line_at plan.now.a.now plan.now.b.now plan.now.entries.now i) page.new.at }
{
    let entry = plan.entries[i];
    page.put_number(i, b' ');
    page.put_number(plan.a[i], b' ');
    page.put_number(plan.b[i], b' ');
    page.put_number(entry / 256, b' ');
    page.put_number(entry % 256, b'\n');
}

// A line for each request.
pub fn put_requests(page: &mut Page, plan: &Shown)
    requires printable { Printable (length plan.now.a.now) plan.now.a.now plan.now.b.now plan.now.entries.now }
    requires lines_room_in_bounds { page.old.at + lines_room 256 ≤ length page.old.out.now }
    ensures same_buffer { page.new.out.ghost_name ≡ page.old.out.ghost_name }
    ensures printing { Printing plan.now.a.now plan.now.b.now plan.now.entries.now page.old.out.now page.old.at (length plan.now.a.now)
        page.new.out.now page.new.at }
{
    for i in 0..plan.a.len() {
        put_request(page, plan, i);
    }
}
