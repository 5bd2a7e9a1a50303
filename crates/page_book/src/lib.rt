// The page that the printing program writes for a book (document 01, "Books and figures"): its plan, or the one line of its refusal.
#![tactic(auto)]

ghost use Rattle.page_book.specs.Page.{Paged};

use page_plan::Shown;
use read_record::Shape;

// Writes the page of a book at the front of the buffer, leaves the rest of it as it was, and answers the page's length.
pub fn page(file: &[u8], out: &mut [u8; 4096]) -> usize
    ensures { Paged file.now out.old out.new result }
{
    match plan_book::plan_book(file, 256, 64) {
        Ok(plan) => {
            let cut = match plan.shape {
                Shape::Line => None,
                Shape::Ring => Some(plan.cut),
            };
            let shown = Shown {
                earned: plan.earned,
                kept: plan.number,
                cut,
                a: &plan.a[..plan.count],
                b: &plan.b[..plan.count],
                entries: &plan.entries[..plan.count],
            };
            page_plan::print_plan(out, shown)
        }
        Err(refusal) => page_plan::print_refusal(out, refusal.row.number(), refusal.place),
    }
}
