// The line that has begun: as many of its bytes as fit are kept in a lent buffer.
ghost use Rattle.std.specs.Prelude.{◌≡◌, take};
ghost use Rattle.script.specs.Script.{line_of};
ghost use Rattle.dialog.specs.Taking.{kept_after, line_after};

// Puts bytes behind the `kept` ones of a line, and answers how many are kept then.
pub(crate) fn keep(line: &mut [u8], kept: usize, bytes: &[u8]) -> usize
    ensures value { result ≡ kept_after line.old kept bytes.now }
    ensures line_after { line.new ≡ line_after line.old kept bytes.now }
{
    if line.len() < kept {
        return kept;
    }
    kept + base::copy_fitting(bytes, &mut line[kept..])
}

// What the `kept` bytes ask for; all bytes of the buffer, where it has no more.
pub(crate) fn parse_kept(line: &[u8], kept: usize) -> Option<script::Line>
    ensures { result ≡ line_of (take kept line.now) }
{
    script::parse_line(line.get(..kept).unwrap_or(line))
}
