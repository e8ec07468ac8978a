ghost use Rattle.std.specs.Prelude.{◌≡◌, ◌≤◌, ◌*◌, ◌/◌, ◌^◌, min, pos};
ghost use Rattle.std.specs.Int.{IsGcd};
ghost use Rattle.device_tables.specs.Level.{IsRatio};

/// Two for the half in the square law, and 10^12 from µV² to V².
const TWICE: u64 = 2_000_000_000_000;

/// The most current, 1 A in pA.
const MOST: u128 = 1_000_000_000_000;

/// A fraction of whole numbers.
#[derive(Clone, Copy, Debug)]
pub(crate) struct Ratio {
    over: u128,
    under: u128,
}

impl Ratio {
    /// `kp · width / (len · 2 · 10^12)`, cut down so that for ordinary devices 64 bits are enough.
    pub(crate) fn of(kp: u64, width: u64, len: u64) -> Ratio
        requires kp { kp ≤ 10 ^ 11 }
        requires width { width ≤ 10 ^ 9 }
        requires positive { 1 ≤ len }
        requires len { len ≤ 10 ^ 9 }
        ensures { IsRatio result kp width len }
    {
        let gain = gcd(kp, TWICE);
        let side = gcd(width, len);
        Ratio {
            over: u128::from(kp / gain) * u128::from(width / side),
            under: u128::from(TWICE / gain) * u128::from(len / side),
        }
    }

    /// The fraction of a number, rounded down and at most 1 A in pA.
    pub(crate) fn times(&self, square: u64) -> i64
        requires over { self.now.over ≤ 10 ^ 20 }
        requires under { 1 ≤ self.now.under }
        requires square { square ≤ 16 * 10 ^ 16 }
        ensures { result ≡ pos (min (self.now.over * square / self.now.under) (10 ^ 12)) }
    {
        quotient(self.over * u128::from(square), self.under).min(MOST) as i64
    }
}

/// `over / under`, rounded down. Where both fit 64 bits it is a division of 64 bits.
fn quotient(over: u128, under: u128) -> u128
    requires { 1 ≤ under }
    ensures { result ≡ over / under }
{
    match (u64::try_from(over), u64::try_from(under)) {
        (Ok(over), Ok(under)) => u128::from(over / under),
        _ => over / under,
    }
}

/// The greatest common divisor.
fn gcd(a: u64, b: u64) -> u64
    ensures { IsGcd a b result }
{
    let mut divided = a;
    let mut divisor = b;
    while divisor != 0 {
        let rest = divided % divisor;
        divided = divisor;
        divisor = rest;
    }
    divided
}
