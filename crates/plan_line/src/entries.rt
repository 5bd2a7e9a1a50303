// The entries of a plan, and the sums over what is kept.
ghost use Rattle.std.specs.Prelude.{◌≡◌, length};
ghost use Rattle.base_sums.specs.Vacant.{Vacant};
ghost use Rattle.base_sums.specs.At.{NumbersUpto};
ghost use Rattle.plan_line.specs.Steps.{Entered, sum_of, number_of};

use base_columns::Columns;

// What the kept ones earn, and how many there are.
#[derive(Clone, Copy)]
pub struct Totals {
    pub earned: usize,
    pub number: usize,
}

// The sums over what is kept.
pub fn sum_kept(kept: &[bool; 256], profit: &[usize]) -> Totals
    requires { NumbersUpto 1000000 (length profit.now) profit.now }
    ensures earned { result.earned ≡ sum_of (length profit.now) kept.now profit.now }
    ensures number { result.number ≡ number_of (length profit.now) kept.now }
{
    let mut earned = 0;
    let mut number = 0;
    for (i, gain) in profit.iter().enumerate() {
        if kept[i] {
            earned += *gain;
            number += 1;
        }
    }
    Totals { earned, number }
}

// The entry of each request: 0 where it is not kept, else way times 256 plus channel. Nothing is written past the requests.
// (Numbers, as document 01 has an entry: way 1 and way 2 times 256.)
pub fn enter(line: &Columns, kept: &[bool; 256], channel: &[usize; 256], entries: &mut [usize; 256])
    requires { NumbersUpto 96 (length line.now.a.now) channel.now }
    ensures entered { Entered (length line.now.a.now) line.now.a.now line.now.b.now kept.now channel.now entries.new }
    ensures vacant { Vacant 0 (length line.now.a.now) 256 entries.old → Vacant 0 (length line.now.a.now) 256 entries.new }
{
    let a = line.a;
    let b = line.b;
    for i in 0..a.len() {
        if kept[i] {
            if a[i] < b[i] {
                entries[i] = 256 + channel[i];
            } else {
                entries[i] = 512 + channel[i];
            }
        } else {
            entries[i] = 0;
        }
    }
}
