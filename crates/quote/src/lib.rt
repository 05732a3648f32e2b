// Told beforehand (request K11): how many numbers a session on a book needs, and how many checks a script on it costs at most.
#![tactic(auto)]

ghost use Rattle.std.specs.Prelude.{◌≡◌};
ghost use Rattle.script.specs.Script.{line_of};
ghost use Rattle.quote.specs.Quote.{is_back, back_lines, quote_answer};

use layout::ceiling::worst;
use refusals::Refusal;

// The most lines of the form `b k` in a script that is quoted for (`max_back_lines`).
const MAX_BACK_LINES: usize = 1_000_000;

// What a quote tells: the session's length, W, how many lines of the form `b k` the script has, and the quoted ceiling.
#[derive(Clone, Copy, Debug, PartialEq, Eq)]
pub struct Quote {
    pub length: u32,
    pub worst: u32,
    pub back_lines: u32,
    pub ceiling: u64,
}

// Whether a line, without its byte 10, is of the form `b k`.
#[tactic(auto, unfolding(crate::specs::Quote::is_back))]
fn is_back(line: &[u8]) -> bool
    ensures { result ≡ is_back (line_of line.now) }
{
    matches!(script::parse_line(line), Some(script::Line::Back(_)))
}

// How many lines of a script are of the form `b k`.
fn back_lines(script: &[u8]) -> usize
    ensures { result ≡ back_lines script.now }
{
    let mut count = 0;
    let mut at = 0;
    while at < script.len() {
        let end = at + script::line_end(&script[at..]);
        if is_back(&script[at..end]) {
            count += 1;
        }
        at = end + 1;
    }
    count
}

// Quotes for a session on a book and the script that is to be run there.
pub fn quote_script(book: &[u32], script: &[u8]) -> Result<Quote, Refusal>
    ensures { result ≡ quote_answer book.now script.now }
{
    let length = session::required_length(book)?;
    let lines = back_lines(script);
    if MAX_BACK_LINES < lines {
        return Err(Refusal::BacktrackCount);
    }
    let worst = worst(book);
    Ok(Quote {
        length,
        worst,
        back_lines: lines as u32,
        ceiling: u64::from(worst) * (lines as u64 + 1),
    })
}
