ghost use Rattle.std.specs.Prelude.{◌+◌, ◌*◌, ◌^◌, ◌≤◌, ◌↔◌, IsTrue};

/// The greatest absolute value that a sum of terms may reach: 2^126. Sums below it never leave 128 bits.
pub const LIMIT: u128 = 1 << 126;

/// Whether a sum is at most `LIMIT`, for any two numbers.
pub fn fits_sum(a: u128, b: u128) -> bool
    ensures { IsTrue result ↔ (a + b ≤ 2 ^ 126) }
{
    a <= LIMIT && b <= LIMIT - a
}

/// Whether `n` products of `a` and `b` sum to at most `LIMIT`, for any three numbers.
pub fn fits_product(n: u32, a: u128, b: u128) -> bool
    ensures { IsTrue result ↔ (n * a * b ≤ 2 ^ 126) }
{
    // Where the other product leaves 128 bits, a zero still makes the whole zero.
    if b == 0 {
        return true;
    }
    match u128::from(n).checked_mul(a) {
        None => false,
        Some(terms) => product_fits(terms, b),
    }
}

fn product_fits(a: u128, b: u128) -> bool
    ensures { IsTrue result ↔ (a * b ≤ 2 ^ 126) }
{
    match a.checked_mul(b) {
        None => false,
        Some(product) => product <= LIMIT,
    }
}
