// The lines of standard input: comments, bases, and trials by their kind.
use crate::sessions;
use book::limits::MAX_BOOK;
use trials::messages::{Message, say};
use trials::names::Kind;
use trials::readings;
use trials::rows::{number, part};

// A trial says its label and what came.
fn trial(rt: &impl Print, base: &[u8], row: &[u8], kind: Option<Kind>) {
    let _ = rt.write_all(part(row, b'|', 1));
    let _ = print!(rt; ": ");
    match kind {
        Some(Kind::Text) => readings::into(rt, base, row, MAX_BOOK, false),
        Some(Kind::Room) => readings::into(rt, base, row, number(row, b'|', 3) as usize, true),
        Some(Kind::Session) => sessions::session(rt, row, &[]),
        Some(Kind::Based) => sessions::session(rt, base, row),
        Some(Kind::Base) | None => say(rt, Message::NoSuchName),
    }
    let _ = println!(rt;);
}

// An empty line and a comment are no trials.
fn is_trial(row: &[u8]) -> bool {
    row.first().is_some_and(|first| *first > b'#')
}

// Every line of a text. A base stands for the trials behind it, up to the next base.
pub fn run(rt: &impl Print, text: &[u8]) {
    let mut base: &[u8] = &[];
    for row in text.split(|b| *b == b'\n') {
        match Kind::of(part(row, b'|', 0)) {
            Some(Kind::Base) => base = row,
            kind => {
                if is_trial(row) {
                    trial(rt, base, row, kind);
                }
            }
        }
    }
}
