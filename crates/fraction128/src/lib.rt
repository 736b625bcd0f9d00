//! Exact fractions of two 64-bit parts. Each operation gives the exact value in lowest terms, or `Wide` exactly if those lowest terms don't
//! fit. It forms the unreduced value in 128 bits, which always hold it, and divides once by the greatest common divisor. Only `scale` takes
//! memory.
#![tactic(auto)]

ghost use Rattle.std.specs.Prelude.{◌≡◌, ◌≢◌, ℕ, ◌<◌, ◌^◌, pos, ◌*ℤ◌, ◌≤ℤ◌, ◌<ℤ◌, neg_ℤ, unsigned_abs, IsTrue, ◌↔◌};
ghost use Rattle.std.specs.Ordering.{MatchOrdering};
ghost use Rattle.fraction128.specs.Fraction.{IsForm};

use std::cmp::Ordering;
use std::fmt;
use std::marker::Model;
use thiserror::Error;

mod divisor;
mod laws;
mod scaling;

pub use divisor::greatest_common_divisor;
use divisor::{reduce, with_sign_of};
pub use laws::{least_decides, one_answer, order_is_total};
pub use scaling::{Scaled, ScalingError, common_denominator, scale};

/// The exact value has no form: a part of its lowest terms is above 2^63 - 1 in size.
#[derive(Clone, Copy, Debug, PartialEq, Eq, Error)]
#[error("the exact value passes 2^63 - 1 in lowest terms")]
pub struct Wide;

/// An exact fraction in lowest terms: a numerator below 2^63 in size and a denominator from 1 to 2^63 - 1.
#[derive(Clone, Copy, Debug, PartialEq, Eq)]
pub struct Frac {
    num: i64,
    den: i64,
}

impl Model for Frac {
    ghost use Rattle.fraction128.specs.Fraction.{Fraction};

    ghost Value = { Fraction };

    ghost use Rattle.fraction128.specs.FracView.{frac_view, IsKept};

    ghost view = { frac_view };

    ghost invariant = { IsKept };

    ghost inverse = { λ f. record { num = f.num; den = f.den } };
}

// The greatest size of a part.
pub(crate) const MOST: u128 = i64::MAX as u128;

impl Frac {
    ghost use Rattle.fraction128.specs.Fraction.{over, whole, IsSame, IsSum, IsDifference, IsProduct, IsQuotient};
    ghost use Rattle.fraction128.specs.Fraction.{IsAtMost, IsBelow, IsFloor};
    ghost use Rattle.fraction128.specs.Gives.{Gives};
    ghost use Rattle.fraction128.specs.Order.{value_cmp};

    /// num / den; Wide if its lowest terms don't fit.
    pub fn ratio(num: i128, den: i128) -> Result<Frac, Wide>
        requires { pos 1 ≤ℤ den }
        ensures { Gives result (IsSame (over num den)) }
    {
        let (top, bottom) = reduce(num.unsigned_abs(), den.unsigned_abs());
        if top > MOST || bottom > MOST {
            return Err(Wide);
        }
        Ok(Frac::of_parts(with_sign_of(num, top), bottom as i64))
    }

    // The fraction of exactly these parts.
    fn of_parts(num: i64, den: i64) -> Frac
        requires { IsForm (over num den) }
        ensures { result ≡ over num den }
    {
        Frac { num, den }
    }

    /// The whole number n, below 2^63.
    pub fn whole(n: u64) -> Frac
        requires { n < 2 ^ 63 }
        ensures { result ≡ whole (pos n) }
    {
        Frac::of_parts(n as i64, 1)
    }

    /// The numerator, in lowest terms.
    pub fn num(self) -> i64
        ensures value { result ≡ self.num }
        ensures form { IsForm self }
    {
        self.num
    }

    /// The denominator, in lowest terms: at least 1.
    pub fn den(self) -> i64
        ensures value { result ≡ self.den }
        ensures form { IsForm self }
    {
        self.den
    }

    /// The sum; Wide if its lowest terms don't fit.
    pub fn add(self, other: Frac) -> Result<Frac, Wide>
        ensures { Gives result (IsSum self other) }
    {
        Frac::ratio(cross(self, other) + cross(other, self), dens(self, other))
    }

    /// The difference; Wide if its lowest terms don't fit.
    pub fn sub(self, other: Frac) -> Result<Frac, Wide>
        ensures { Gives result (IsDifference self other) }
    {
        Frac::ratio(cross(self, other) - cross(other, self), dens(self, other))
    }

    /// The product; Wide if its lowest terms don't fit.
    pub fn mul(self, other: Frac) -> Result<Frac, Wide>
        ensures { Gives result (IsProduct self other) }
    {
        Frac::ratio(nums(self, other), dens(self, other))
    }

    /// The quotient by a fraction that isn't 0; Wide if its lowest terms don't fit.
    pub fn div(self, other: Frac) -> Result<Frac, Wide>
        requires { other.num ≢ pos 0 }
        ensures { Gives result (IsQuotient self other) }
    {
        let top = cross(self, other);
        let bottom = cross(other, self);
        if bottom > 0 {
            Frac::ratio(top, bottom)
        } else {
            Frac::ratio(-top, -bottom)
        }
    }

    /// The same size with the other sign. It always has a form.
    pub fn neg(self) -> Frac
        ensures { result ≡ over (neg_ℤ self.num) self.den }
    {
        Frac::of_parts(-self.num, self.den)
    }

    /// Which of the two is less.
    pub fn cmp(self, other: Frac) -> Ordering
        ensures by_value { MatchOrdering result (IsBelow self other) (self ≡ other) (IsBelow other self) }
        ensures order { result ≡ value_cmp self other }
    {
        cross(self, other).cmp(&cross(other, self))
    }

    /// Whether this is at most the other.
    pub fn at_most(self, other: Frac) -> bool
        ensures { IsTrue result ↔ IsAtMost self other }
    {
        cross(self, other) <= cross(other, self)
    }

    /// Whether this is 0.
    pub fn is_zero(self) -> bool
        ensures { IsTrue result ↔ (self.num ≡ pos 0) }
    {
        self.num == 0
    }

    /// Whether this is above 0.
    pub fn is_above_zero(self) -> bool
        ensures { IsTrue result ↔ (pos 0 <ℤ self.num) }
    {
        self.num > 0
    }

    /// The greatest whole number that isn't above it.
    pub fn floor(self) -> i64
        ensures { IsFloor self result }
    {
        self.num.div_euclid(self.den)
    }
}

impl Ord for Frac {
    ghost use Rattle.fraction128.specs.Order.{value_cmp};
    ghost use Rattle.std.specs.Prelude.{refl};
    ghost use Rattle.fraction128.specs.OrderLaws.{value_is_total, level_is_same};

    ghost cmp = { value_cmp };

    ghost total = { value_is_total };

    ghost matches_partial_cmp = { λ _ _. refl };

    ghost matches_eq = { level_is_same };

    fn cmp(&self, other: &Frac) -> Ordering {
        Frac::cmp(*self, *other)
    }
}

impl PartialOrd for Frac {
    ghost use Rattle.std.specs.Prelude.{refl};
    ghost use Rattle.std.specs.Ordering.{as_partial_cmp};
    ghost use Rattle.std.specs.Cmp.{partial_order_from_agreeing_total};
    ghost use Rattle.fraction128.specs.OrderLaws.{value_is_total, level_is_same};
    ghost use Rattle.fraction128.specs.Order.{value_cmp};

    ghost partial_cmp = { as_partial_cmp value_cmp };

    ghost laws = { partial_order_from_agreeing_total value_cmp value_is_total (λ _ _. refl) level_is_same };

    fn partial_cmp(&self, other: &Frac) -> Option<Ordering> {
        Some(Frac::cmp(*self, *other))
    }
}

impl fmt::Display for Frac {
    ghost use Rattle.std.specs.Prelude.{Some};
    ghost use Rattle.fraction128.specs.Text.{text_of};

    ghost output = { λ f. Some (text_of f) };

    fn fmt<W: fmt::Write>(&self, f: &mut fmt::Formatter<W>) -> fmt::Result {
        let num = self.num;
        let den = self.den;
        write!(f, "{num}/{den}")
    }
}

// The products that the operations are made of. Each part is below 2^63 in size, so 128 bits hold them, and a sum of two.

fn cross(a: Frac, b: Frac) -> i128
    ensures left { IsForm a }
    ensures right { IsForm b }
    ensures value { result ≡ a.num *ℤ b.den }
    ensures small { unsigned_abs result < 2 ^ 126 }
{
    a.num as i128 * b.den as i128
}

fn nums(a: Frac, b: Frac) -> i128
    ensures value { result ≡ a.num *ℤ b.num }
    ensures small { unsigned_abs result < 2 ^ 126 }
{
    a.num as i128 * b.num as i128
}

fn dens(a: Frac, b: Frac) -> i128
    ensures value { result ≡ a.den *ℤ b.den }
    ensures small { unsigned_abs result < 2 ^ 126 }
    ensures positive { pos 1 ≤ℤ result }
{
    a.den as i128 * b.den as i128
}
