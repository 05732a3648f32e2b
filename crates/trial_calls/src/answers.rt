// The answers of the calls in the paper's words. Each function is handed a call's answer and says it, but for a refusal.
use quote::Quote;
use refusals::Refusal;
use session::{Assigned, Propagated, Shown};
use trials::messages::{Signed, say_each};
use trials::space::{LENT, LENT_TOTAL, untouched};

// How many literals of the trail are to be listed behind an answer, or the refusal.
pub type Listed = Result<u32, Refusal>;

// What was called: a decision, which has a literal, or an opening.
fn called(rt: &impl Print, literal: Option<u32>) {
    let _ = match literal {
        Some(literal) => print!(rt; "choose {}", Signed(literal)),
        None => print!(rt; "open"),
    };
}

// What an opening or a decision answers.
pub(crate) fn propagated(
    rt: &impl Print,
    literal: Option<u32>,
    answer: Result<Propagated, Refusal>,
) -> Listed {
    let propagated = answer?;
    called(rt, literal);
    match propagated {
        Propagated::Implied(count) => {
            let _ = print!(rt; " forced {count}:");
            Ok(count)
        }
        Propagated::Conflict(clause) => {
            let _ = print!(rt; " rule {clause}");
            Ok(0)
        }
    }
}

// What a backtrack or a fixing answers; an accepted one is said by a word and its number.
pub(crate) fn done(
    rt: &impl Print,
    word: &str,
    number: u32,
    answer: Result<(), Refusal>,
) -> Listed {
    answer?;
    let _ = print!(rt; "{word} {number}");
    Ok(0)
}

// What a lookup answers; only an assigned variable has a level.
pub(crate) fn assigned(
    rt: &impl Print,
    variable: u32,
    answer: Result<Assigned, Refusal>,
) -> Listed {
    let _ = match answer? {
        Assigned::Open => print!(rt; "feature {variable} open"),
        Assigned::Positive(level) => print!(rt; "feature {variable} wanted at level {level}"),
        Assigned::Negative(level) => print!(rt; "feature {variable} barred at level {level}"),
    };
    Ok(0)
}

pub(crate) fn sum(rt: &impl Print, answer: Result<u64, Refusal>) -> Listed {
    let checks = answer?;
    let _ = print!(rt; "checks {checks}");
    Ok(0)
}

pub(crate) fn figures(rt: &impl Print, answer: Result<Shown, Refusal>) -> Listed {
    let shown = answer?;
    let _ = print!(rt; "choices {} backs {}", shown.decisions, shown.backtracks);
    let _ = print!(rt; " trail {} rule {}", shown.trail, shown.conflict);
    Ok(0)
}

// A count behind a word.
pub(crate) fn count(rt: &impl Print, word: &str, answer: Result<u32, Refusal>) -> Listed {
    let n = answer?;
    let _ = print!(rt; "{word} {n}");
    Ok(0)
}

// A count, behind a word, and what the numbers hold that were lent for a copy; a refusal must leave them alone.
pub(crate) fn copied(
    rt: &impl Print,
    word: &str,
    answer: Result<u32, Refusal>,
    copy: &[u32],
) -> Listed {
    match answer {
        Ok(n) => {
            let _ = print!(rt; "{word} {n}:");
            say_each(rt, copy);
            Ok(0)
        }
        Err(refusal) => {
            untouched(rt, copy, 0, &LENT);
            Err(refusal)
        }
    }
}

// What a call for the totals by chapter answers, with the totals that were lent for it; they must be left alone where they are not filed.
pub(crate) fn by_chapter(rt: &impl Print, answer: Result<bool, Refusal>, totals: &[u64]) -> Listed {
    match answer {
        Ok(true) => {
            let _ = print!(rt; "true:");
            say_each(rt, totals);
            Ok(0)
        }
        Ok(false) => {
            let _ = print!(rt; "false");
            untouched(rt, totals, 0, &LENT_TOTAL);
            Ok(0)
        }
        Err(refusal) => {
            untouched(rt, totals, 0, &LENT_TOTAL);
            Err(refusal)
        }
    }
}

// What a quote answers.
pub(crate) fn quoted(rt: &impl Print, answer: Result<Quote, Refusal>) -> Listed {
    let quote = answer?;
    let _ = print!(rt; "need {} W {}", quote.length, quote.worst);
    let _ = print!(rt; " b {} ceiling {}", quote.back_lines, quote.ceiling);
    Ok(0)
}

// The form of a book.
pub(crate) fn form(rt: &impl Print, well_formed: bool) -> Listed {
    if !well_formed {
        return Err(Refusal::Book);
    }
    let _ = print!(rt; "well formed");
    Ok(0)
}
