// Steps of a trial on a session: a name, and numbers behind it, parted by blanks.
use trial_calls::call;
use trial_calls::reads::list_last;
use trials::damage;
use trials::names::{Call, Step};
use trials::rows::{number, part};
use trials::space::{SPACE, compare, first};

// A call on the numbers that are lent, with the literals that it implied; a refusal must leave all numbers alone.
fn call_on(
    rt: &impl Print,
    book: &[u32],
    session: &mut [u32; SPACE],
    room: usize,
    step: &[u8],
    called: Option<Call>,
) {
    let kept = *session;
    let Some(lent) = first(rt, session, room) else {
        return;
    };
    match call(rt, book, lent, step, called) {
        Ok(listed) => list_last(rt, book, lent, listed as usize),
        Err(refusal) => {
            let _ = print!(rt; "{refusal}");
            compare(rt, session, &kept);
        }
    }
}

// Takes a step, and answers how many numbers the next calls are lent. An answer that is not the last is parted from the next one.
pub fn take(
    rt: &impl Print,
    book: &[u32],
    session: &mut [u32; SPACE],
    room: usize,
    step: &[u8],
    last: bool,
) -> usize {
    let n = number(step, b' ', 1) as usize;
    match Step::of(part(step, b' ', 0)) {
        Step::Write => {
            damage::write(rt, book, session, step);
            room
        }
        Step::Give => n,
        Step::Short => damage::required_length(book).saturating_sub(n),
        Step::Spare => damage::required_length(book) + n,
        Step::Call(called) => {
            call_on(rt, book, session, room, step, called);
            if !last {
                let _ = print!(rt; " / ");
            }
            room
        }
    }
}
