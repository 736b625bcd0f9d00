ghost use Rattle.std.specs.Prelude.{◌≡◌, ℕ, ◌<◌, ◌≤◌, ◌^◌, pos, ◌≤ℤ◌, unsigned_abs, [], ◌∷◌, ◌++◌, List, All, length};
ghost use Rattle.std.specs.Int.{◌∣◌};
ghost use Rattle.fraction128.specs.Fraction.{Fraction};
ghost use Rattle.fraction128.specs.Scaling.{GivesCommon, GivesScaled};
ghost use Rattle.fraction128.specs.Scales.{Scales};

use crate::divisor::gcd;
use crate::{Frac, MOST, Wide};
use std::alloc::{AllocError, AllocFailed, Global};
use thiserror::Error;

/// Fractions over their least common denominator `den`: the numerator of each. All numbers are at most 2^63 - 1.
#[derive(Debug, Drop)]
pub struct Scaled {
    pub den: u64,
    pub num: Vec<u64>,
}

/// Why fractions were not scaled.
#[derive(Clone, Copy, Debug, PartialEq, Eq, Error)]
pub enum ScalingError {
    /// There is no memory for the numbers.
    #[error("there is no memory for the scaled numbers")]
    Memory,
    /// The least common denominator, or a number over it, is above 2^63 - 1.
    #[error("the least common denominator or a number over it passes 2^63 - 1")]
    Wide,
}

impl From<AllocError> for ScalingError {
    ghost use Rattle.fraction128.specs.declared.scaling.ScalingError.TheVariants.{Memory};

    ghost from_gives = { λ _ error. error ≡ Memory };

    fn from(_error: AllocError) -> ScalingError {
        ScalingError::Memory
    }
}

impl<T: Drop> From<AllocFailed<T>> for ScalingError {
    ghost use Rattle.fraction128.specs.declared.scaling.ScalingError.TheVariants.{Memory};

    ghost from_gives = { λ _ error. error ≡ Memory };

    fn from(_refused: AllocFailed<T>) -> ScalingError {
        ScalingError::Memory
    }
}

impl From<Wide> for ScalingError {
    ghost use Rattle.fraction128.specs.declared.scaling.ScalingError.TheVariants.{Wide as WideOver};

    ghost from_gives = { λ _ error. error ≡ WideOver };

    fn from(_wide: Wide) -> ScalingError {
        ScalingError::Wide
    }
}

/// The least common denominator; Wide if it is above 2^63 - 1.
pub fn common_denominator(values: &[Frac]) -> Result<u64, Wide>
    ensures { GivesCommon result values.now }
{
    let mut common = Ok(1);
    for value in values {
        common = with_denominator(common, *value);
    }
    common
}

// The least common denominator of some values and one more. It never falls. So if it is Wide, it stays Wide.
fn with_denominator(common: Result<u64, Wide>, value: Frac) -> Result<u64, Wide>
    ensures { (fs : List Fraction) → GivesCommon common fs → GivesCommon result (fs ++ value ∷ []) }
{
    let den = value.den() as u128;
    // a whole number needs no greater denominator
    if den == 1 {
        return common;
    }
    match common {
        Ok(so_far) => {
            let multiple = so_far as u128 / gcd(so_far as u128, den) * den;
            if multiple > MOST {
                Err(Wide)
            } else {
                Ok(multiple as u64)
            }
        }
        Err(Wide) => Err(Wide),
    }
}

// The numerator of a value over a multiple of its denominator.
fn number_over(den: u64, value: Frac) -> Result<u64, Wide>
    requires small { den < 2 ^ 63 }
    requires multiple { unsigned_abs value.den ∣ den }
    requires not_below { pos 0 ≤ℤ value.num }
    ensures { GivesScaled result den value }
{
    let times = den / value.den().unsigned_abs();
    let number = times as u128 * value.num().unsigned_abs() as u128;
    if number > MOST {
        Err(Wide)
    } else {
        Ok(number as u64)
    }
}

/// The values over their least common denominator; Wide if that, or a number over it, is above 2^63 - 1.
pub fn scale(alloc: Global, values: &[Frac]) -> Result<Scaled, ScalingError>
    requires { All (λ f. pos 0 ≤ℤ f.num) values.now }
    ensures { Scales result values.now }
{
    let den = common_denominator(values)?;
    let mut num = Vec::with_capacity(alloc, values.len())?;
    for value in values {
        let number = number_over(den, *value)?;
        num.push(number)?;
    }
    Ok(Scaled { den, num })
}
