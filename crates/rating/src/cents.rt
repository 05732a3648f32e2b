// Thousandths of a cent rounded to whole cents.
ghost use Rattle.std.specs.Prelude.{◌≡◌, ◌+◌, ◌<◌, nat_abs};
ghost use Rattle.rating.specs.Pricing.{rounded};

// To the nearest, halves away from zero: a signed quotient is cut towards zero. With 500 added or taken off the number still fits.
pub(crate) fn to_cents(p: i64) -> i64
    requires { nat_abs p + 500 < 9223372036854775808 }
    ensures { result ≡ rounded p }
{
    if p < 0 {
        return (p - 500) / 1000;
    }
    (p + 500) / 1000
}
