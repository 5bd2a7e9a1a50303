// The order file, or a part of it, as reading sees it: a view that remembers how far it has read. (Document 01 names this form, a struct and thin functions over a
// reader; where a record may stand depends on what is due, so each is told both.)
ghost use Rattle.std.specs.Prelude.{◌≡◌};
ghost use Rattle.read_record.specs.Due.{MayStand, record_at};

use crate::{Due, Record, Refusal};

// `at` records of the slice have been read, so it is the index of the next one.
#[derive(Clone, Copy)]
pub struct View<'a> {
    pub src: &'a [u8],
    pub at: usize,
}

// A view of a slice of which so many records have been read.
pub fn view_from<'a>(src: &'a [u8], at: usize) -> View<'a>
    ensures { (result.src ≡ src.entry) × (result.at ≡ at) }
{
    View { src, at }
}

// The next record, as what is due there.
pub fn next<'a>(view: View<'a>, due: Due) -> Result<Record, Refusal>
    requires { MayStand view.src.now view.at due }
    ensures { result ≡ record_at view.entry.src.now view.entry.at due }
{
    crate::record_at(view.src, view.at, due)
}

// The record at a position, read through a view that is made for it: what the reading loops call (docs/DECISIONS.md says why no loop keeps one).
pub fn through_view(src: &[u8], at: usize, due: Due) -> Result<Record, Refusal>
    requires { MayStand src.now at due }
    ensures { result ≡ record_at src.now at due }
{
    next(view_from(src, at), due)
}
