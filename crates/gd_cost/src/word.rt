//! Exact arithmetic on one whole number.

ghost use Rattle.std.specs.Prelude.{◌≡◌, ℤ, pos, ◌^◌, ◌+ℤ◌, ◌-ℤ◌, ◌*ℤ◌, IsTrue};
ghost use Rattle.gd_scale.specs.Words.{word_fits};

pub fn plus(a: i128, b: i128) -> i128
    requires left { IsTrue (word_fits (pos (2 ^ 100)) a) }
    requires right { IsTrue (word_fits (pos (2 ^ 100)) b) }
    ensures { result ≡ a +ℤ b }
{
    a + b
}

pub fn less(a: i128, b: i128) -> i128
    requires left { IsTrue (word_fits (pos (2 ^ 100)) a) }
    requires right { IsTrue (word_fits (pos (2 ^ 100)) b) }
    ensures { result ≡ a -ℤ b }
{
    a - b
}

pub fn times(a: i128, count: i64) -> i128
    requires { IsTrue (word_fits (pos (2 ^ 60)) a) }
    ensures { result ≡ count *ℤ a }
{
    i128::from(count) * a
}

/// Whether a number is at most a bound in size.
pub fn fits(a: i128, bound: i128) -> bool
    ensures { result ≡ word_fits bound a }
{
    // The negative of the least number doesn't fit its type.
    0 <= bound && a <= bound && -bound <= a
}
