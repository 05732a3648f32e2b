// Checks by chapter: a step has how many totals are lent, and behind that number the chapters of the clauses.
use crate::answers;
use crate::answers::Listed;
use book::limits::MAX_CLAUSES;
use chapters::chapter_totals;
use trials::lists::numbers;
use trials::rows::behind;
use trials::space::{LENT_TOTAL, first};

// The chapters that a step may have: a few more than the clauses of the largest book.
const MOST: usize = MAX_CLAUSES + 4;

// The totals by chapter in so many totals, with the chapters of a step: a list whose head word is how many totals are lent.
pub(crate) fn totals(
    rt: &impl Print,
    book: &[u32],
    session: &[u32],
    step: &[u8],
    n: usize,
) -> Listed {
    let mut chapters = [0u32; MOST];
    let so_many = numbers(rt, behind(step), &mut chapters);
    let mut space = [LENT_TOTAL; 64];
    let Some(totals) = first(rt, &mut space, n) else {
        return Ok(0);
    };
    let answer = chapter_totals(book, session, &chapters[..so_many], totals);
    answers::by_chapter(rt, answer, totals)
}
