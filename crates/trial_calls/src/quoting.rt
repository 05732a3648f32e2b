// Quotes: a step has a script behind its first blank.
ghost use Rattle.std.specs.Prelude.{◌<◌, ◌^◌};

use crate::answers;
use crate::answers::Listed;
use quote::quote_script;
use trials::build::{has_parts, script_of};
use trials::rows::behind;

// The bytes that a script with repeated parts may have.
const LONG: usize = 5_242_880;

// The bytes that any other may have.
const SHORT: usize = 256;

// The quote for a script, whose bytes are put into a space of so many.
fn quote_in<const N: usize>(rt: &impl Print, book: &[u32], script: &[u8]) -> Listed
    requires { N < 2 ^ 63 }
{
    let mut space = [0u8; N];
    let n = script_of(rt, &mut space, script);
    answers::quoted(rt, quote_script(book, &space[..n]))
}

// The quote for the script of a step.
pub(crate) fn quoted(rt: &impl Print, book: &[u32], step: &[u8]) -> Listed {
    let script = behind(step);
    if has_parts(script) {
        quote_in::<LONG>(rt, book, script)
    } else {
        quote_in::<SHORT>(rt, book, script)
    }
}
