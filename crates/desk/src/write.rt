// Numbers into the desk's lists, high byte first.
ghost use Rattle.std.specs.Prelude.{◌+◌, ◌≤◌, length};
ghost use Rattle.paper_book.specs.Columns.{at};
ghost use Rattle.desk.specs.Promise.{Written};
ghost use Rattle.desk.specs.Writing.{NumberPut, Fit};

// The last bytes of a number, as many as `width`, from an offset on.
fn put(out: &mut [u8], offset: usize, width: usize, value: usize)
    requires { (width ≤ 8) × (offset + width ≤ length out.old) }
    ensures { NumberPut offset width 0 value out.old out.new }
{
    let bytes = value.to_be_bytes();
    out[offset..offset + width].copy_from_slice(&bytes[8 - width..]);
}

// Each number of a list, in so many bytes: entries have two, prices four.
pub fn write_numbers(width: usize, numbers: &[usize], out: &mut [u8])
    requires few_bytes { width ≤ 8 }
    requires fit { Fit width (length numbers.now) numbers.now out.old }
    ensures { Written width (length numbers.now) (at numbers.now) out.old out.new }
{
    for (i, number) in numbers.iter().enumerate() {
        put(out, width * i, width, *number);
    }
}
