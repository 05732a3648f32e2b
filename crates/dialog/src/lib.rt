// The dialog of the script program: bytes of a script in, bytes of the answers out.
#![tactic(auto)]

mod answers;
mod lines;

ghost use Rattle.std.specs.Prelude.{◌≡◌};
ghost use Rattle.script.specs.Buffer.{fitting};
ghost use Rattle.base.specs.Lists.{copied};
ghost use Rattle.dialog.specs.Starting.{start_left, starting};
ghost use Rattle.dialog.specs.Taking.{take_left, taking, begun_numbers, final_bytes};

// The bytes of an answer, and of the last two lines together, are at most so many (`max_answer`).
pub const MAX_ANSWER: usize = 4096;

// As much of a line as has to be kept (`max_line`): one byte more than the longest line with a meaning.
pub const MAX_LINE: usize = 12;

// What became of a start: how many bytes were written, and whether the script is to be answered.
#[derive(Clone, Copy, Debug, PartialEq, Eq)]
pub enum Started {
    Open(usize),
    Refused(usize),
}

// How many bytes of the script were used, how many bytes of the line that has begun are kept, how many bytes of an answer were written.
#[derive(Clone, Copy, Debug, PartialEq, Eq)]
pub struct Taken {
    pub used: usize,
    pub kept: usize,
    pub written: usize,
}

// Reads the rule book and opens a session on it; leaves the line of the opening, or of the refusal, in `out`. A text that is read into `book` stays
// there where the session is too short for it and is refused.
pub fn start(text: &[u8], book: &mut [u32], session: &mut [u32], out: &mut [u8]) -> Started
    ensures { start_left result book.new session.new out.new ≡ starting text.now book.old session.old out.old }
{
    match book::read(text, book) {
        Err(refusal) => Started::Refused(script::write_refused(refusal.number(), out)),
        Ok(_) => answers::open(book, session, out),
    }
}

// Takes the next bytes of the script, up to and with the end of a line; where the line ends, makes its call and leaves its answer in `out`.
pub fn take(
    book: &[u32],
    session: &mut [u32],
    line: &mut [u8],
    kept: usize,
    bytes: &[u8],
    out: &mut [u8],
) -> Taken
    ensures { take_left result session.new line.new out.new ≡ taking book.now session.old line.old kept bytes.now out.old }
{
    let end = script::line_end(bytes);
    if end < bytes.len() {
        let held = lines::keep(line, kept, &bytes[..end]);
        let written = answers::answer(book, session, line, held, out);
        return Taken {
            used: end + 1,
            kept: 0,
            written,
        };
    }
    let held = lines::keep(line, kept, bytes);
    Taken {
        used: end,
        kept: held,
        written: 0,
    }
}

// The end of the script: answers a line that has begun and lacks its byte 10, then writes the last line; both into `out`.
pub fn finish(book: &[u32], session: &mut [u32], line: &[u8], kept: usize, out: &mut [u8]) -> usize
    ensures value { result ≡ fitting (final_bytes book.now session.old line.now kept) out.old }
    ensures out_after { out.new ≡ copied (final_bytes book.now session.old line.now kept) out.old }
    ensures session_after { session.new ≡ begun_numbers book.now session.old line.now kept }
{
    let begun = answers::answer_begun(book, session, line, kept, out);
    begun + answers::last_line(book, session, &mut out[begun..])
}
