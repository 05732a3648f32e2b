// Checks by chapter (request K6): the counts of a session added up by the chapters that the book's clauses are filed in.
#![tactic(auto)]

ghost use Rattle.std.specs.Prelude.{◌≡◌, true, ◌++◌, ◌≤◌, length, drop};
ghost use Rattle.book.specs.Formula.{max_clauses};
ghost use Rattle.chapters.specs.Chapters.{chapter_count, chapter_totals, chapters_fit, chapter_answer, chapter_numbers};

use book::limits::MAX_CLAUSES;
use refusals::Refusal;

// The chapters, 0 to 31 (`chapter_count`, `max_chapter`).
pub const CHAPTERS: usize = 32;

const MAX_CHAPTER: u32 = 31;

// Each of so many clauses has a chapter, none over 31, and all totals have room.
fn chapters_fit(clauses: usize, chapters: &[u32], room: usize) -> bool
    ensures { result ≡ chapters_fit clauses chapters.now room }
{
    CHAPTERS <= room
        && clauses <= chapters.len()
        && chapters[..clauses]
            .iter()
            .all(|chapter| *chapter <= MAX_CHAPTER)
}

// Writes the totals of counts whose chapters fit.
fn add_up(counts: &[u32], chapters: &[u32], totals: &mut [u64])
    requires counts_len_bound { length counts.now ≤ max_clauses }
    requires totals_value { chapters_fit (length counts.now) chapters.now (length totals.old) ≡ true }
    ensures { totals.new ≡ chapter_totals counts.now chapters.now ++ drop chapter_count totals.old }
{
    totals[0..CHAPTERS].fill(0);
    for (count, chapter) in counts.iter().zip(chapters) {
        totals[*chapter as usize] += u64::from(*count);
    }
}

// Writes the 32 totals, chapter 0 first. A refusal, or false where the chapters or the lent totals do not fit, writes nothing.
pub fn chapter_totals(
    book: &[u32],
    session: &[u32],
    chapters: &[u32],
    totals: &mut [u64],
) -> Result<bool, Refusal>
    ensures value { result ≡ chapter_answer book.now session.now chapters.now (length totals.old) }
    ensures totals_after { totals.new ≡ chapter_numbers book.now session.now chapters.now totals.old }
{
    let mut counts = [0u32; MAX_CLAUSES];
    let clauses = session::checks(book, session, &mut counts)? as usize;
    if !chapters_fit(clauses, chapters, totals.len()) {
        return Ok(false);
    }
    add_up(&counts[..clauses], chapters, totals);
    Ok(true)
}
