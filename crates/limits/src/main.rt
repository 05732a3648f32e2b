// Executes the limits of document 01 on the code: each line of standard input is a trial, and prints one line, held to the stored `stdout`.
#![tactic(auto)]

mod lines;
mod sessions;
mod steps;

ghost use Rattle.std.specs.Prelude.{◌<◌, ◌≤◌, ◌^◌, length};

use std::io::Read;
use trials::messages::{Message, say};

// The bytes that are read at once; the trials must be fewer.
const INPUT: usize = 1_048_576;

// Reads until the space is full, the input ends or a read fails, and answers how many bytes there are.
fn read_full(input: &mut impl Read, space: &mut [u8]) -> usize
    ensures { result ≤ length space.new }
{
    let mut at = 0;
    while at < space.len() {
        match input.read(&mut space[at..]) {
            Ok(n) if n > 0 => at += n,
            _ => return at,
        }
    }
    at
}

// Reads all trials at once into a space of so many bytes. Where they fill it the last line may be cut, so nothing is tried.
fn run<const N: usize>(rt: &(impl Print + Input))
    requires { N < 2 ^ 63 }
{
    let mut space = [0u8; N];
    let n = read_full(&mut rt.reader(), &mut space);
    if n < N {
        lines::run(rt, &space[..n]);
    } else {
        say(rt, Message::TooLong);
    }
}

fn main(rt: HostRuntime) {
    run::<INPUT>(&rt);
}
