// What trials say of themselves, and how they print numbers. That a write failed is not looked at.
use std::fmt;
use std::fmt::Display;

// What is wrong with a row, or with what a call did.
#[derive(Clone, Copy, Debug, PartialEq, Eq)]
pub enum Message {
    TooLong,
    NoSuchName,
    NoSuchPlace,
    Changed,
    OutOfForm,
}

impl Display for Message {
    fn fmt<W: fmt::Write>(&self, f: &mut fmt::Formatter<W>) -> fmt::Result {
        f.write_str(match self {
            Message::TooLong => ", too long",
            Message::NoSuchName => ", no such name",
            Message::NoSuchPlace => ", no such place",
            Message::Changed => ", lent numbers changed",
            Message::OutOfForm => ", out of form",
        })
    }
}

// A literal, printed as a signed variable.
#[derive(Clone, Copy, Debug, PartialEq, Eq)]
pub struct Signed(pub u32);

impl Display for Signed {
    fn fmt<W: fmt::Write>(&self, f: &mut fmt::Formatter<W>) -> fmt::Result {
        let sign = if self.0 % 2 == 1 { "-" } else { "" };
        write!(f, "{sign}{}", self.0 / 2)
    }
}

pub fn say(rt: &impl Print, message: Message) {
    let _ = print!(rt; "{message}");
}

// The items, each behind a blank.
pub fn say_each<T: Display>(rt: &impl Print, items: &[T]) {
    for item in items {
        let _ = print!(rt; " {item}");
    }
}
