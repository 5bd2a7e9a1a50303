// The desk's library for C: planner and checker of the crate `desk`, exported on bytes and numbers (document 01, "What the desk plans").
// include/melyonva.h declares them; ./desk_library builds libdesk.a.
#![tactic(auto)]

ghost use Rattle.std.specs.Prelude.{◌≡◌};
ghost use Rattle.paper_rules.specs.Operations.{checker};
ghost use Rattle.desk.specs.Packing.{packed_verdict};
ghost use Rattle.desk.specs.Promise.{PlanAnswer};

// Plans the book. On success the entries are written, and on a line the prices, and the answer packs earnings, number kept and cut; on a refusal nothing
// is written, and the answer packs its number and place.
#[unsafe(no_mangle)]
pub extern "C" fn melyonva_plan(book: &[u8], entries: &mut [u8], prices: &mut [u8]) -> u64
    ensures { PlanAnswer book.now entries.old prices.old result entries.new prices.new }
{
    desk::melyonva_plan(book, entries, prices)
}

// Checks a plan at prices. The answer is 1 for yes, 0 for no, or a packed refusal. It writes nothing.
#[unsafe(no_mangle)]
pub extern "C" fn melyonva_check(book: &[u8], entries: &[u8], prices: &[u8]) -> u64
    ensures { result ≡ packed_verdict (checker book.now entries.now prices.now) }
{
    desk::melyonva_check(book, entries, prices)
}
