// Signed numbers on the machine: their size, a size with a sign, wider ones, sums and products.
#![tactic(auto)]

ghost use Rattle.std.specs.Prelude.{◌≡◌, cond, ◌<◌, pos, neg_ℤ, nat_abs, ◌+ℤ◌, ◌*ℤ◌};
ghost use Rattle.std.specs.Int.{w64};
ghost use Rattle.std.proofs.Common.{SFits};

pub fn widened(x: i32) -> i64
    ensures { result ≡ x }
{
    i64::from(x)
}

// The size of a number, the least one too: that is never negated.
pub fn size_of(x: i64) -> u64
    ensures { result ≡ nat_abs x }
{
    x.unsigned_abs()
}

// The number of a size, below zero or not.
pub fn with_sign(size: u64, minus: bool) -> i64
    requires { size < 9223372036854775808 }
    ensures { result ≡ cond minus (neg_ℤ (pos size)) (pos size) }
{
    let x = size as i64;
    if minus { 0 - x } else { x }
}

// A product and a sum, where they fit.
pub fn product(a: i64, b: i64) -> i64
    requires { SFits w64 (a *ℤ b) }
    ensures { result ≡ a *ℤ b }
{
    a * b
}

pub fn sum(a: i64, b: i64) -> i64
    requires { SFits w64 (a +ℤ b) }
    ensures { result ≡ a +ℤ b }
{
    a + b
}
