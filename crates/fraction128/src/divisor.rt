ghost use Rattle.std.specs.Prelude.{◌≡◌, ℕ, ◌*◌, ◌%◌, ◌<◌, ◌^◌};
ghost use Rattle.std.specs.Int.{IsGcd, trailing_zeros, w64};
ghost use Rattle.fraction128.specs.LowestTerms.{IsLowest, IsOddPart, signed};

// The greatest number that 64 bits hold.
const MOST_SMALL: u128 = u64::MAX as u128;

// The greatest common divisor, by Euclid's steps, in 128 bits only while the numbers need them.
pub(crate) fn gcd(a: u128, b: u128) -> u128
    ensures { IsGcd a b result }
{
    let mut x = a;
    let mut y = b;
    while y > MOST_SMALL {
        let rest = x % y;
        x = y;
        y = rest;
    }
    if x <= MOST_SMALL {
        return greatest_common_divisor(x as u64, y as u64) as u128;
    }
    if y == 0 {
        return x;
    }
    greatest_common_divisor(y as u64, (x % y) as u64) as u128
}

/// The greatest common divisor of two sizes. That of 0 and another is the other.
pub fn greatest_common_divisor(a: u64, b: u64) -> u64
    ensures { IsGcd a b result }
{
    // by shifts instead of divisions: factors of 2 are removed, and the fewer of them put back
    if a == 0 {
        return b;
    }
    if b == 0 {
        return a;
    }
    let common = gcd_odd(odd_part(a), odd_part(b));
    common << a.trailing_zeros().min(b.trailing_zeros())
}

// A number without its factors of 2.
fn odd_part(n: u64) -> u64
    requires { 0 < n }
    ensures { IsOddPart n result (trailing_zeros w64 n) }
{
    n >> n.trailing_zeros()
}

// The greatest common divisor of two odd numbers. Their difference is even, and its factors of 2 are in neither.
fn gcd_odd(a: u64, b: u64) -> u64
    requires a_odd { a % 2 ≡ 1 }
    requires b_odd { b % 2 ≡ 1 }
    ensures { IsGcd a b result }
{
    let mut x = a;
    let mut y = b;
    while x != y {
        let less = x.min(y);
        let gap = x.max(y) - less;
        x = less;
        y = odd_part(gap);
    }
    x
}

// The same fraction of two sizes in lowest terms.
pub(crate) fn reduce(num: u128, den: u128) -> (u128, u128)
    requires { 0 < den }
    ensures { IsLowest num den result.0 result.1 }
{
    // whole numbers are in lowest terms
    if den == 1 {
        return (num, den);
    }
    let common = gcd(num, den);
    if common == 1 {
        return (num, den);
    }
    (num / common, den / common)
}

// A size with the sign of a number.
pub(crate) fn with_sign_of(num: i128, size: u128) -> i64
    requires { size < 2 ^ 63 }
    ensures { result ≡ signed num size }
{
    if num < 0 { -(size as i64) } else { size as i64 }
}
