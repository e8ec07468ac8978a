use thiserror::Error;

/// Why a text is no number of a unit. Where several hold, the first in this order is answered.
#[derive(Clone, Copy, Debug, PartialEq, Eq, Error)]
pub enum NumRefusal {
    /// The text does not begin with a sign or none, and digits with at most one point among, before
    /// or behind them.
    #[error("there are no digits")]
    NoDigits,
    /// More than 18 digits stand from the first that is not 0, before the exponent.
    #[error("there are more than 18 digits")]
    TooManyDigits,
    /// The exponent is above 99 or below -99.
    #[error("the exponent is beyond 99")]
    BadExponent,
    /// The tail begins with `mil`, or has a character that is no letter.
    #[error("the tail is `mil`, or not of letters")]
    BadTail,
    /// The number of units, rounded, has more than 18 digits.
    #[error("the number has more than 18 digits in its unit")]
    OutOfUnit,
}
