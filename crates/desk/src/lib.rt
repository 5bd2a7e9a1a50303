// The desk's boundary (document 01, "What the desk plans"): planner and checker on bytes and numbers, which the crate `desk_c` exports for a C program.
// docs/DESK.md has the packing.
#![tactic(auto)]

mod pack;
mod write;

ghost use Rattle.std.specs.Prelude.{◌≡◌};
ghost use Rattle.paper_rules.specs.Operations.{checker};
ghost use Rattle.desk.specs.Packing.{packed_verdict};
ghost use Rattle.desk.specs.Promise.{PlanAnswer};

use check_plan::Verdict;
use read_record::Shape;

// Plans the book. On success the entries are written, and on a line the prices, and the answer packs earnings, number kept and cut; on a refusal nothing
// is written, and the answer packs its number and place.
pub fn melyonva_plan(book: &[u8], entries: &mut [u8], prices: &mut [u8]) -> u64
    ensures { PlanAnswer book.now entries.old prices.old result entries.new prices.new }
{
    match plan_book::plan_book(book, entries.len() / 2, prices.len() / 4) {
        Err(refused) => pack::refusal(refused),
        Ok(plan) => {
            write::write_numbers(2, &plan.entries[..plan.count], entries);
            if let Shape::Line = plan.shape {
                write::write_numbers(4, &plan.prices[..plan.spans], prices);
            }
            pack::plan(plan.earned, plan.number, plan.cut)
        }
    }
}

// Checks a plan at prices. The answer is 1 for yes, 0 for no, or a packed refusal. It writes nothing.
pub fn melyonva_check(book: &[u8], entries: &[u8], prices: &[u8]) -> u64
    ensures { result ≡ packed_verdict (checker book.now entries.now prices.now) }
{
    match check_plan::check_plan(book, entries, prices) {
        Ok(Verdict::Yes) => 1,
        Ok(Verdict::No) => 0,
        Err(refusal) => pack::refusal(refusal),
    }
}
