// The script program's lines: one line in, one answer line out, as bytes.
#![tactic(auto)]

mod writing;

ghost use Rattle.std.specs.Prelude.{◌≡◌, length};
ghost use Rattle.script.specs.Script.{line_bytes, line_of};
ghost use Rattle.base.specs.Lists.{copied};
ghost use Rattle.script.specs.Buffer.{fitting};
ghost use Rattle.script.specs.Answers.{implied_line, clause_line, back_line, refused_line, end_line};

use crate::writing::Writer;

// What a line of the script asks for: a decision of a literal, or a backtrack.
#[derive(Clone, Copy, Debug, PartialEq, Eq)]
pub enum Line {
    Choose(u32),
    Back(u32),
}

// The call that a line answers, if it propagates.
#[derive(Clone, Copy, Debug, PartialEq, Eq)]
pub enum Cause {
    Opening,
    Decision(u32),
}

// The byte that ends a line.
pub const LINE_END: u8 = b'\n';

// Where the first line ends: as many bytes as stand before the first byte 10, or all.
pub fn line_end(bytes: &[u8]) -> usize
    ensures { result ≡ length (line_bytes bytes.now) }
{
    bytes
        .iter()
        .position(|b| *b == LINE_END)
        .unwrap_or(bytes.len())
}

// Reads one line, without its byte 10; a malformed line asks for nothing.
#[tactic(auto, using(book::proofs::DecimalLaws::value_below))]
pub fn parse_line(line: &[u8]) -> Option<Line>
    ensures { result ≡ line_of line.now }
{
    if let Some(digits) = line.strip_prefix(b"-") {
        Some(Line::Choose(2 * book::number(digits)? + 1))
    } else if line.starts_with(b"b ") {
        Some(Line::Back(book::number(line.get(2..)?)?))
    } else {
        Some(Line::Choose(2 * book::number(line)?))
    }
}

// Each of these writes a line to the front of `out`, as far as it fits, and answers how many bytes it wrote.
pub fn write_implied(cause: Cause, literals: &[u32], out: &mut [u8]) -> usize
    ensures value { result ≡ fitting (implied_line cause literals.now) out.old }
    ensures out_after { out.new ≡ copied (implied_line cause literals.now) out.old }
{
    let mut line = Writer::new(out);
    line.put_cause(cause);
    line.put_all(b" forced ");
    line.put_number(literals.len() as u64);
    line.put(b':');
    line.put_listed(literals);
    line.at
}

pub fn write_clause(cause: Cause, clause: u32, out: &mut [u8]) -> usize
    ensures value { result ≡ fitting (clause_line cause clause) out.old }
    ensures out_after { out.new ≡ copied (clause_line cause clause) out.old }
{
    let mut line = Writer::new(out);
    line.put_cause(cause);
    line.put_all(b" rule ");
    line.put_number(u64::from(clause));
    line.put(LINE_END);
    line.at
}

pub fn write_back(k: u32, out: &mut [u8]) -> usize
    ensures value { result ≡ fitting (back_line k) out.old }
    ensures out_after { out.new ≡ copied (back_line k) out.old }
{
    let mut line = Writer::new(out);
    line.put_all(b"back ");
    line.put_number(u64::from(k));
    line.put(LINE_END);
    line.at
}

pub fn write_refused(refusal: u32, out: &mut [u8]) -> usize
    ensures value { result ≡ fitting (refused_line refusal) out.old }
    ensures out_after { out.new ≡ copied (refused_line refusal) out.old }
{
    let mut line = Writer::new(out);
    line.put_all(b"refused ");
    line.put_number(u64::from(refusal));
    line.put(LINE_END);
    line.at
}

pub fn write_end(decisions: u32, backtracks: u32, checks: u64, out: &mut [u8]) -> usize
    ensures value { result ≡ fitting (end_line decisions backtracks checks) out.old }
    ensures out_after { out.new ≡ copied (end_line decisions backtracks checks) out.old }
{
    let mut line = Writer::new(out);
    line.put_all(b"end choices ");
    line.put_number(u64::from(decisions));
    line.put_all(b" backs ");
    line.put_number(u64::from(backtracks));
    line.put_all(b" checks ");
    line.put_number(checks);
    line.put(LINE_END);
    line.at
}
