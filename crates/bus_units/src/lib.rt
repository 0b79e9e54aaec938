//! Quantities as people write them: a plain decimal, with at most three places behind a point, and a unit.
//!
//! A length is read exactly, as whole nanoseconds, and what isn't a whole number of them is refused; so is how far a clock is off, in whole
//! millionths. [`bits_up`] rounds a length up to bit times. `specs/Quantities` says what a word writes, from its bytes.
#![tactic(auto)]

mod number;
mod quantity;
mod unit;

pub use quantity::{
    MOST_LENGTH, MOST_MILLIONTHS, QuantityError, bits_up, length_of, millionths_of,
};
