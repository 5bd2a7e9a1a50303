// Runs the reader on a small book, on parts of it, and on it with one byte changed.
#![tactic(auto)]

ghost use Rattle.std.specs.Prelude.{◌≡◌};
ghost use Rattle.paper_book.specs.Reading.{reading};
ghost use Rattle.read_runs.specs.Told.{is_refused, is_done};

// A line of two nodes and three channels, a span of limit 3, and a request 0 to 1 of profit 1,000,000.
const BOOK: [u8; 48] = [
    1, 1, 0, 2, 0, 3, 0, 0, 0, 0, 0, 0, 0, 0, 0, 0, 2, 1, 0, 0, 0, 3, 0, 0, 0, 0, 0, 0, 0, 0, 0, 0,
    3, 0, 0, 0, 0, 0, 0, 1, 0, 15, 66, 64, 0, 0, 0, 0,
];

// A byte of the book, what is put there, and the refusal that it is to give. (Four lists, as specs/Changes has them: law `right` is about those.)
const AT: [usize; 21] = [
    0, 1, 15, 1, 3, 3, 5, 5, 3, 16, 19, 31, 17, 21, 32, 33, 35, 47, 37, 39, 43,
];

const VALUE: [u8; 21] = [
    2, 3, 1, 2, 1, 65, 0, 97, 3, 3, 1, 1, 0, 4, 2, 1, 1, 1, 2, 0, 65,
];

const NUMBER: [usize; 21] = [
    2, 2, 2, 3, 3, 3, 4, 4, 5, 5, 5, 5, 6, 7, 9, 9, 9, 9, 10, 10, 11,
];

const PLACE: [usize; 21] = [
    0, 0, 0, 0, 0, 0, 0, 0, 2, 1, 1, 1, 1, 1, 2, 2, 2, 2, 2, 2, 2,
];

fn accepted(file: &[u8]) -> bool
    ensures { result ≡ is_done (reading file.now) }
{
    read_book::read_book(file).is_ok()
}

// Whether the book is refused by this number at this place.
fn refused(file: &[u8], number: usize, place: usize) -> bool
    ensures { result ≡ is_refused (reading file.now) number place }
{
    match read_book::read_book(file) {
        Ok(_) => false,
        Err(refusal) => refusal.row.number() == number && refusal.place == place,
    }
}

// The whole book, and what is left of it: without the request, without the span, half a record more, and nothing.
fn parts() {
    let book = BOOK;
    check::expect(accepted(&book));
    check::expect(accepted(&book[..32]));
    check::expect(refused(&book[..16], 5, 1));
    check::expect(refused(&book[..24], 1, 0));
    check::expect(refused(&book[..0], 1, 0));
}

// One byte changed.
fn changes() {
    for k in 0..21 {
        let mut book = BOOK;
        book[AT[k]] = VALUE[k];
        check::expect(refused(&book, NUMBER[k], PLACE[k]));
    }
}

fn main() {
    parts();
    changes();
}
