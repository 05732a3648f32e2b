// Trials of sessions: the steps of a row are taken one by one on one book and one lent part.
use crate::steps::take;
use book::limits::MAX_BOOK;
use trials::damage::required_length;
use trials::readings::{book_of, damage_field};
use trials::rows::part;
use trials::space::{LENT, SPACE, untouched};

// The steps of a list, parted by `,`; the last has none behind it.
fn take_all(rt: &impl Print, book: &[u32], session: &mut [u32; SPACE], list: &[u8]) {
    let mut room = SPACE;
    for step in list.split_inclusive(|b| *b == b',') {
        room = match step.strip_suffix(b",") {
            Some(step) => take(rt, book, session, room, step, false),
            None => take(rt, book, session, room, step, true),
        };
    }
}

// The steps of fields 2, 5 and 8 of a row; the two fields behind each change a book number.
fn take_fields(rt: &impl Print, book: &mut [u32], session: &mut [u32; SPACE], row: &[u8]) {
    for (steps, place, number) in [(2, 3, 4), (5, 6, 7), (8, 9, 10)] {
        take_all(rt, book, session, part(row, b'|', steps));
        damage_field(rt, book, row, place, number);
    }
}

// The steps in field 3 of the row with the book, then those of a row on it. The numbers behind the required length must not change.
fn on_book(
    rt: &impl Print,
    book: &mut [u32],
    session: &mut [u32; SPACE],
    source: &[u8],
    row: &[u8],
) {
    let length = required_length(book);
    take_all(rt, book, session, part(source, b'|', 3));
    take_fields(rt, book, session, row);
    untouched(rt, session, length, &LENT);
}

// A trial on the book of one row by the steps of that row and of another.
pub fn session(rt: &impl Print, source: &[u8], row: &[u8]) {
    let mut space = [0u32; MAX_BOOK];
    let mut session = [LENT; SPACE];
    let n = book_of(rt, source, &mut space);
    on_book(rt, &mut space[..n], &mut session, source, row);
}
