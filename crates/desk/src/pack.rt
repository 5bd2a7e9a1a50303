// The one number that goes back to the desk (docs/DESK.md).
ghost use Rattle.std.specs.Prelude.{◌≡◌};
ghost use Rattle.read_record.specs.Numbers.{number_of};
ghost use Rattle.desk.specs.Packing.{packed_refusal, packed_plan};
ghost use Rattle.desk.specs.Bounds.{SmallRefusal, SmallPlan};

use read_record::Refusal;

// A refusal: the highest bit, its number and its place.
pub fn refusal(refusal: Refusal) -> u64
    requires { SmallRefusal (number_of refusal.row) refusal.place }
    ensures { result ≡ packed_refusal (number_of refusal.row) refusal.place }
{
    (1 << 63) + ((refusal.row.number() as u64) << 32) + refusal.place as u64
}

// A plan: earnings, number kept and cut.
pub fn plan(earned: usize, number: usize, cut: usize) -> u64
    requires { SmallPlan earned number cut }
    ensures { result ≡ packed_plan earned number cut }
{
    ((earned as u64) << 32) + ((number as u64) << 16) + cut as u64
}
