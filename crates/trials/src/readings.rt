// Trials of texts and book numbers: a text is read into lent numbers, and a row has a book for other trials.
ghost use Rattle.std.specs.Prelude.{◌≤◌, length};

use crate::build;
use crate::lists::numbers;
use crate::messages::{Message, say, say_each};
use crate::rows::{number, part};
use crate::space::{LENT, damage, first, untouched};
use book::Sizes;
use book::limits::MAX_BOOK;
use refusals::Refusal;

// Says what a reading answers. Gives how many numbers the book has, None at a refusal.
fn answered(rt: &impl Print, reading: Result<Sizes, Refusal>) -> Option<usize> {
    match reading {
        Ok(sizes) => {
            let _ = print!(rt;
                "V {} C {} L {}",
                sizes.variables, sizes.clauses, sizes.literals
            );
            Some(sizes.clauses as usize + sizes.literals as usize + 4)
        }
        Err(refusal) => {
            let _ = print!(rt; "{refusal}");
            None
        }
    }
}

// Reads the text of a row into lent numbers.
fn read(rt: &impl Print, base: &[u8], row: &[u8], buffer: &mut [u32]) -> Result<Sizes, Refusal> {
    let mut text = [0u8; 65_536];
    let n = build::text(rt, &mut text, base, row);
    book::read(&text[..n], buffer)
}

// Says the numbers that were written, and whether others were lent.
fn list(rt: &impl Print, buffer: &[u32], written: Option<usize>, room: usize) {
    let Some(written) = written else {
        let _ = print!(rt; ", lent numbers untouched");
        return;
    };
    let _ = print!(rt; ", numbers");
    if let Some(numbers) = buffer.get(..written) {
        say_each(rt, numbers);
    }
    if written < room {
        let _ = print!(rt; ", the rest untouched");
    }
}

// Numbers that were written have the form of a book; that they have not is said.
fn judge_form(rt: &impl Print, buffer: &[u32], written: Option<usize>) {
    if written.is_some() && !book::well_formed(buffer) {
        say(rt, Message::OutOfForm);
    }
}

// Reads into so many lent numbers. The others must not change. What they hold is said where that is asked.
pub fn into(rt: &impl Print, base: &[u8], row: &[u8], room: usize, listed: bool) {
    let mut space = [LENT; MAX_BOOK];
    let Some(lent) = first(rt, &mut space, room) else {
        return;
    };
    let written = answered(rt, read(rt, base, row, lent));
    untouched(rt, &space, written.unwrap_or(0), &LENT);
    if listed {
        list(rt, &space, written, room);
    } else {
        judge_form(rt, &space, written);
    }
}

// The book in field 2 of a row: a list of numbers, or a text. Answers how many numbers are lent for it.
pub fn book_of(rt: &impl Print, row: &[u8], book: &mut [u32]) -> usize
    ensures { result ≤ length book.old }
{
    let list = part(row, b'|', 2);
    if part(list, b' ', 0) == b"numbers".as_slice() {
        return numbers(rt, list, book);
    }
    let _ = read(rt, row, row, book);
    book.len()
}

// Stores a book number, where a field of a row has its place; the next field has the number.
pub fn damage_field(rt: &impl Print, book: &mut [u32], row: &[u8], place: usize, next: usize) {
    if !part(row, b'|', place).is_empty() {
        let at = number(row, b'|', place) as usize;
        damage(rt, book.get_mut(at), number(row, b'|', next));
    }
}

// V, C and L of a book.
pub fn sizes(rt: &impl Print, book: &[u32]) {
    let _ = print!(rt;
        "V {} C {} L {}",
        book::variables(book),
        book::clauses(book),
        book::literals(book)
    );
}
