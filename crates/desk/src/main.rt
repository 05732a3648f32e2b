// Reads the rule book `tariff.cnf`, then a script from standard input, and prints an answer to each line.
#![tactic(auto)]

ghost use Rattle.std.specs.Prelude.{ℕ, ◌≡◌, List, Ok};
ghost use Rattle.std.specs.Io.{ReadsAtMost};
ghost use Rattle.dialog.specs.Program.{Lends, holding, PartTaken};

use book::limits::{MAX_BOOK, MAX_TEXT};
use dialog::{MAX_ANSWER, MAX_LINE, Started};
use layout::offsets::MAX_SESSION;
use std::fs::File;
use std::io;
use std::io::{ErrorKind, Read};
use std::rt::Files;

// The bytes of a file, as many as fit: how many there are.
fn read_file(file: &mut impl Read, bytes: &mut [u8]) -> io::Result<usize>
    ensures { ReadsAtMost result bytes.new }
{
    let mut at = 0;
    while at < bytes.len() {
        match file.read(&mut bytes[at..])? {
            0 => return Ok(at),
            n => at += n,
        }
    }
    Ok(at)
}

// The text of the rule book, as much as tells that it is over the limit: how many bytes there are. No file is an empty text.
fn read_text(rt: &impl Files, text: &mut [u8]) -> io::Result<usize>
    ensures { ReadsAtMost result text.new }
{
    match File::open(rt, "tariff.cnf") {
        Ok(mut file) => read_file(&mut file, text),
        Err(e) if e.kind() == ErrorKind::NotFound => Ok(0),
        Err(e) => Err(e),
    }
}

// Answers a part of the script: it is lent again, without what is used of it, until it is used up. The result says how many bytes of a line that has
// begun are kept.
fn answer_part(
    rt: &impl Print,
    book: &[u32],
    session: &mut [u32],
    line: &mut [u8],
    kept: usize,
    bytes: &[u8],
    out: &mut [u8],
) -> io::Result<usize>
    ensures { (held : ℕ) → result ≡ Ok held → (printed : List ℕ) × PartTaken book.now (holding session.old line.old kept out.old) bytes.now (holding session.new line.new held out.new) printed }
{
    let mut held = kept;
    let mut rest = bytes;
    while !rest.is_empty() {
        let taken = dialog::take(book, session, line, held, rest, out);
        rt.write_all(&out[..taken.written])?;
        held = taken.kept;
        rest = &rest[taken.used..];
    }
    Ok(held)
}

// Reads once, and answers what came; nothing, where the script has ended.
fn answer_some(
    rt: &impl Print,
    input: &mut impl Read,
    book: &[u32],
    session: &mut [u32],
    line: &mut [u8],
    kept: usize,
    out: &mut [u8],
) -> io::Result<Option<usize>> {
    let mut bytes = [0u8; 4096];
    match input.read(&mut bytes)? {
        0 => Ok(None),
        n => Ok(Some(answer_part(rt, book, session, line, kept, &bytes[..n], out)?)),
    }
}

// Answers the script, then prints the last line. A proved loop has to end, so it goes over more turns than any run makes.
fn answer_script(
    rt: &(impl Input + Print),
    book: &[u32],
    session: &mut [u32],
    line: &mut [u8],
    out: &mut [u8],
) -> io::Result<()> {
    let mut input = rt.reader();
    let mut kept = 0;
    for _ in 0..u64::MAX {
        let Some(held) = answer_some(rt, &mut input, book, session, line, kept, out)? else {
            break;
        };
        kept = held;
    }
    let n = dialog::finish(book, session, line, kept, out);
    rt.write_all(&out[..n])
}

// The dialog on the text of a rule book, in buffers that every book, session and answer fits.
fn run(
    rt: &(impl Input + Print),
    text: &[u8],
    book: &mut [u32],
    session: &mut [u32],
    line: &mut [u8],
    out: &mut [u8],
) -> io::Result<()>
    requires { Lends book.old session.old line.old out.old }
{
    match dialog::start(text, book, session, out) {
        Started::Refused(n) => rt.write_all(&out[..n]),
        Started::Open(n) => {
            rt.write_all(&out[..n])?;
            answer_script(rt, book, session, line, out)
        }
    }
}

// Where a read or a write fails, nothing more is printed, and the last line is missing.
fn main(rt: HostRuntime) {
    let mut text = [0u8; MAX_TEXT + 1];
    let mut book = [0u32; MAX_BOOK];
    let mut session = [0u32; MAX_SESSION];
    let mut line = [0u8; MAX_LINE];
    let mut out = [0u8; MAX_ANSWER];
    if let Ok(n) = read_text(&rt, &mut text) {
        let _ = run(
            &rt,
            &text[..n],
            &mut book,
            &mut session,
            &mut line,
            &mut out,
        );
    }
}
