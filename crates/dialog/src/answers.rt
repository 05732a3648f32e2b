// The calls that the lines ask for, and the lines of their answers.
ghost use Rattle.std.specs.Prelude.{◌≡◌};
ghost use Rattle.dialog.specs.Answering.{last_line};
ghost use Rattle.dialog.specs.Starting.{start_left, opening};
ghost use Rattle.dialog.specs.Inner.Printing.{ShowsImplied, ShowsPropagated, PrintsImplied, PrintsPropagated, PrintsLine, PrintsBegun, Prints};

use crate::Started;
use crate::lines::parse_kept;
use book::limits::MAX_VARIABLES;
use refusals::Refusal;
use script::{Cause, Line};
use session::Propagated;

// The line of a call that implied so many literals: the last ones on the trail.
fn show_implied(book: &[u32], session: &[u32], cause: Cause, implied: u32, out: &mut [u8]) -> usize
    requires { ShowsImplied book.now session.now implied }
    ensures { PrintsImplied book.now session.now cause implied out.old out.new result }
{
    let mut literals = [0u32; MAX_VARIABLES];
    let Ok(trail) = session::trail_from(book, session, 0, &mut literals) else {
        return 0;
    };
    let from = (trail - implied) as usize;
    script::write_implied(cause, &literals[from..trail as usize], out)
}

// The line of an opening or a decision that is not refused.
fn show_propagated(
    book: &[u32],
    session: &[u32],
    cause: Cause,
    propagated: Propagated,
    out: &mut [u8],
) -> usize
    requires { ShowsPropagated book.now session.now propagated }
    ensures { PrintsPropagated book.now session.now cause propagated out.old out.new result }
{
    match propagated {
        Propagated::Implied(implied) => show_implied(book, session, cause, implied, out),
        Propagated::Conflict(clause) => script::write_clause(cause, clause, out),
    }
}

// Opens a session on a book, and writes the line of the opening or of its refusal.
pub(crate) fn open(book: &[u32], session: &mut [u32], out: &mut [u8]) -> Started
    ensures { start_left result book.now session.new out.new ≡ opening book.now session.old out.old }
{
    match session::open(book, session) {
        Ok(propagated) => {
            let written = show_propagated(book, session, Cause::Opening, propagated, out);
            match propagated {
                Propagated::Implied(_) => Started::Open(written),
                Propagated::Conflict(_) => Started::Open(written),
            }
        }
        Err(refusal) => Started::Refused(script::write_refused(refusal.number(), out)),
    }
}

// Makes the call that a kept line asks for, and writes its answer.
pub(crate) fn answer(
    book: &[u32],
    session: &mut [u32],
    line: &[u8],
    kept: usize,
    out: &mut [u8],
) -> usize
    ensures { PrintsLine book.now session.old session.new line.now kept out.old out.new result }
{
    match parse_kept(line, kept) {
        None => script::write_refused(Refusal::Line.number(), out),
        Some(Line::Choose(literal)) => match session::decide(book, session, literal) {
            Ok(made) => show_propagated(book, session, Cause::Decision(literal), made, out),
            Err(refusal) => script::write_refused(refusal.number(), out),
        },
        Some(Line::Back(k)) => match session::backtrack(book, session, k) {
            Ok(_) => script::write_back(k, out),
            Err(refusal) => script::write_refused(refusal.number(), out),
        },
    }
}

// Answers a line that has begun, if there is one.
pub(crate) fn answer_begun(
    book: &[u32],
    session: &mut [u32],
    line: &[u8],
    kept: usize,
    out: &mut [u8],
) -> usize
    ensures { PrintsBegun book.now session.old session.new line.now kept out.old out.new result }
{
    if 0 < kept {
        return answer(book, session, line, kept, out);
    }
    0
}

// The last line.
pub(crate) fn last_line(book: &[u32], session: &[u32], out: &mut [u8]) -> usize
    ensures { Prints (last_line book.now session.now) out.old out.new result }
{
    match session::total(book, session) {
        Err(refusal) => script::write_refused(refusal.number(), out),
        Ok(checks) => match session::figures(book, session) {
            Err(refusal) => script::write_refused(refusal.number(), out),
            Ok(shown) => script::write_end(shown.decisions, shown.backtracks, checks, out),
        },
    }
}
