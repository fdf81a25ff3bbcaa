//! Whole numbers of JSON.
ghost use Rattle.std.specs.Prelude.{◌≡◌};
ghost use Rattle.spec_json.specs.WholeNumber.{IsWhole};

use std::alloc::AllocError;
use std::marker::Model;

/// A whole number from -2^63 to 2^64 - 1, those that JSON texts are read with. Takes no memory.
///
/// It lies in two fields, since an `i128` would have each JSON value lie at a multiple of 16 bytes.
#[derive(Drop)]
pub struct Num {
    is_negative: bool,
    // how far it is from 0, or where it is negative from -1
    distance: u64,
}

impl Model for Num {
    ghost use Rattle.std.specs.Prelude.{ℤ};
    ghost use Rattle.spec_json.specs.WholeNumber.{IsWhole, distance_of, from_parts, is_below_zero};

    ghost Value = { ℤ };

    ghost view = { λ a. from_parts a.is_negative a.distance };

    ghost invariant = { λ a. IsWhole (from_parts a.is_negative a.distance) };

    ghost inverse = { λ z. record { is_negative = is_below_zero z; distance = distance_of z } };

    ghost use Rattle.spec_json.specs.WholeNumber.{distance_back, sign_back};

    ghost inverse_ok = { λ a h i. record {
      is_negative = sign_back a.is_negative a.distance i;
      distance = distance_back a.is_negative a.distance i;
    } };
}

impl Clone for Num {
    ghost is_clone = { λ x y. y ≡ x };

    fn clone(&self) -> Result<Num, AllocError> {
        Ok(*self)
    }
}

impl Copy for Num {}

impl Num {
    /// Makes a number of one that is in range.
    pub fn new(number: i128) -> Num
        requires { IsWhole number }
        ensures { result ≡ number }
    {
        if number < 0 {
            Num {
                is_negative: true,
                distance: (-1 - number) as u64,
            }
        } else {
            Num {
                is_negative: false,
                distance: number as u64,
            }
        }
    }

    /// The number's value.
    pub fn get(&self) -> i128
        ensures value { result ≡ self.now }
        ensures range { IsWhole result }
    {
        if self.is_negative {
            -1 - i128::from(self.distance)
        } else {
            i128::from(self.distance)
        }
    }
}
