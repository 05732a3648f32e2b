// The calls of a session that only read, and the list of the last literals of its trail.
use crate::answers;
use crate::answers::Listed;
use book::limits::MAX_VARIABLES;
use refusals::Refusal;
use trials::messages::Signed;
use trials::names::Read;
use trials::readings::sizes;
use trials::space::{LENT, first};

// What a call copies to so many numbers, with the word for it.
fn copy_to<F: FnOnce(&mut [u32]) -> Result<u32, Refusal>>(
    rt: &impl Print,
    word: &str,
    n: usize,
    copy: F,
) -> Listed
    requires { F.IsAlwaysCallable copy }
{
    let mut space = [LENT; 64];
    let Some(out) = first(rt, &mut space, n) else {
        return Ok(0);
    };
    let answer = copy(out);
    answers::copied(rt, word, answer, out)
}

// The call that reads, with its numbers.
pub(crate) fn read(
    rt: &impl Print,
    book: &[u32],
    session: &[u32],
    called: Read,
    a: u32,
    b: u32,
) -> Listed {
    match called {
        Read::Lookup => answers::assigned(rt, a, session::lookup(book, session, a)),
        Read::Figures => answers::figures(rt, session::figures(book, session)),
        Read::Fixed => answers::count(rt, "choices fixed", session::fixed(book, session)),
        Read::Total => answers::sum(rt, session::total(book, session)),
        Read::Required => answers::count(rt, "need", session::required_length(book)),
        Read::Each => copy_to(rt, "rules", a as usize, |out| {
            session::checks(book, session, out)
        }),
        Read::Trail => copy_to(rt, "literals", b as usize, |out| {
            session::trail_from(book, session, a, out)
        }),
        Read::Form => answers::form(rt, book::well_formed(book)),
        Read::Sizes => {
            sizes(rt, book);
            Ok(0)
        }
    }
}

// So many last literals of the trail, which is copied; None where it is not told, or has fewer.
fn last<'a>(
    book: &[u32],
    session: &[u32],
    count: usize,
    trail: &'a mut [u32; MAX_VARIABLES],
) -> Option<&'a [u32]> {
    let length = session::trail_from(book, session, 0, trail).ok()? as usize;
    trail.get(length.checked_sub(count)?..length)
}

// Lists the last literals of the trail.
pub fn list_last(rt: &impl Print, book: &[u32], session: &[u32], count: usize) {
    let mut trail = [0u32; MAX_VARIABLES];
    for literal in last(book, session, count, &mut trail).unwrap_or(&[]) {
        let _ = print!(rt; " {}", Signed(*literal));
    }
}
