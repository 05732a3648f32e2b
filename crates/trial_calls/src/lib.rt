// The calls of a trial, and what they answer, for `limits`.
#![tactic(auto)]

pub mod answers;
mod filing;
mod quoting;
pub mod reads;

use crate::answers::Listed;
use crate::reads::read;
use refusals::Refusal;
use script::Line;
use session::Propagated;
use trials::build::decode;
use trials::lists::numbers;
use trials::messages::{Message, say};
use trials::names::Call;
use trials::rows::{behind, number};

// Makes the calls of the list in a step.
fn replay(
    rt: &impl Print,
    book: &[u32],
    session: &mut [u32],
    step: &[u8],
) -> Result<Propagated, Refusal> {
    let mut calls = [0u32; 64];
    let n = numbers(rt, step, &mut calls);
    session::replay(book, &calls[..n], session)
}

fn decide(rt: &impl Print, book: &[u32], session: &mut [u32], literal: u32) -> Listed {
    answers::propagated(rt, Some(literal), session::decide(book, session, literal))
}

fn backtrack(rt: &impl Print, book: &[u32], session: &mut [u32], k: u32) -> Listed {
    answers::done(rt, "back", k, session::backtrack(book, session, k))
}

// What the line of a script asks; it stands behind the first blank of a step.
fn parsed(rt: &impl Print, step: &[u8]) -> Option<Line> {
    let mut bytes = [0u8; 256];
    let n = decode(rt, &mut bytes, behind(step));
    script::parse_line(&bytes[..n])
}

fn line(rt: &impl Print, book: &[u32], session: &mut [u32], asked: Option<Line>) -> Listed {
    match asked.ok_or(Refusal::Line)? {
        Line::Choose(literal) => decide(rt, book, session, literal),
        Line::Back(k) => backtrack(rt, book, session, k),
    }
}

// Decides every second literal from one on, so many times, and says the figures.
fn decide_many(
    rt: &impl Print,
    book: &[u32],
    session: &mut [u32],
    first: u32,
    times: u32,
) -> Listed {
    let mut literal = first;
    for _ in 0..times {
        let _ = session::decide(book, session, literal);
        literal = literal.wrapping_add(2);
    }
    answers::figures(rt, session::figures(book, session))
}

// The call of a step, None where it has no such name.
pub fn call(
    rt: &impl Print,
    book: &[u32],
    session: &mut [u32],
    step: &[u8],
    called: Option<Call>,
) -> Listed {
    let Some(called) = called else {
        say(rt, Message::NoSuchName);
        return Ok(0);
    };
    let a = number(step, b' ', 1);
    let b = number(step, b' ', 2);
    match called {
        Call::Open => answers::propagated(rt, None, session::open(book, session)),
        Call::Decide => decide(rt, book, session, a),
        Call::Backtrack => backtrack(rt, book, session, a),
        Call::Fix => answers::done(rt, "fixed", a, session::fix(book, session, a)),
        Call::Many => decide_many(rt, book, session, a, b),
        Call::Begin => {
            let _ = replay(rt, book, session, step);
            Ok(0)
        }
        Call::Replay => answers::propagated(rt, None, replay(rt, book, session, step)),
        Call::Line => line(rt, book, session, parsed(rt, step)),
        Call::Chapters => filing::totals(rt, book, session, step, a as usize),
        Call::Quote => quoting::quoted(rt, book, step),
        Call::Read(called) => read(rt, book, session, called, a, b),
    }
}
