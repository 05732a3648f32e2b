// Lists of numbers: a head word, then words `x`, or `x:s:n` for n numbers from x on, s apart.
ghost use Rattle.std.specs.Prelude.{◌≤◌, IfSome, length};

use crate::build::fitting;
use crate::rows::{behind, number};

// Stores the numbers of a word from a place on, one where it does not say how many. Answers the place behind them, None where they do not fit.
fn fill(out: &mut [u32], at: usize, word: &[u8]) -> Option<usize>
    requires { at ≤ length out.old }
    ensures { IfSome result (λ n. n ≤ length out.old) }
{
    let step = number(word, b':', 1);
    let mut value = number(word, b':', 0);
    let mut to = at;
    for _ in 0..number(word, b':', 2).max(1) {
        *out.get_mut(to)? = value;
        value = value.wrapping_add(step);
        to += 1;
    }
    Some(to)
}

// Stores the numbers of all words, each with the blank behind it, which is no digit. Answers as above.
fn fill_all(out: &mut [u32], words: &[u8]) -> Option<usize>
    ensures { IfSome result (λ n. n ≤ length out.old) }
{
    let mut n = 0;
    for word in words.split_inclusive(|b| *b == b' ') {
        n = fill(out, n, word)?;
    }
    Some(n)
}

// The numbers behind the head word; answers how many they are.
pub fn numbers(rt: &impl Print, list: &[u8], out: &mut [u32]) -> usize
    ensures { result ≤ length out.old }
{
    let n = fill_all(out, behind(list));
    fitting(rt, n, out.len())
}
