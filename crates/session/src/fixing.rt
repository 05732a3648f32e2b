// The decisions that may not be taken back: a call that fixes the first ones in force, and how many are fixed.
ghost use Rattle.std.specs.Prelude.{◌≡◌};
ghost use Rattle.refusals.specs.Refusals.{checked};
ghost use Rattle.session.specs.Outcomes.{session_fix_refusal, fix_answer, fix_numbers, fixed_answer};

use layout::offsets::{CONFLICT, DECISIONS, FIXED};
use refusals::Refusal;

// Refuses a fixing in conflict, and one of fewer decisions than are fixed or of more than are in force.
#[tactic(auto, using(crate::proofs::ReadLaws::read_header, crate::proofs::ReadLaws::fixing_in_conflict, crate::proofs::ReadLaws::fixing_below, crate::proofs::ReadLaws::fixing_over, crate::proofs::ReadLaws::fixing_within))]
fn check_fixing(book: &[u32], session: &[u32], f: u32) -> Result<(), Refusal>
    ensures { result ≡ checked (session_fix_refusal book.now session.now f) }
{
    validation::validate(book, session)?;
    let ended = session[CONFLICT] != 0;
    if ended {
        return Err(Refusal::InConflict);
    }
    if f < session[FIXED] || f > session[DECISIONS] {
        return Err(Refusal::FixingRange);
    }
    Ok(())
}

// Fixes the first f decisions in force: no backtrack reaches them. A refusal changes no number.
pub fn fix(book: &[u32], session: &mut [u32], f: u32) -> Result<(), Refusal>
    ensures value { result ≡ fix_answer book.now session.old f }
    ensures session_after { session.new ≡ fix_numbers book.now session.old f }
{
    check_fixing(book, session, f)?;
    Ok(engine::fix(book, session, f))
}

// How many decisions are fixed.
#[tactic(auto, using(crate::proofs::ReadLaws::read_header, crate::proofs::ReadLaws::read_fixed))]
pub fn fixed(book: &[u32], session: &[u32]) -> Result<u32, Refusal>
    ensures { result ≡ fixed_answer book.now session.now }
{
    validation::validate(book, session)?;
    Ok(session[FIXED])
}
