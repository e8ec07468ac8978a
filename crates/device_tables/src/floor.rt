ghost use Rattle.std.specs.Prelude.{◌≡◌, pos, ◌≤ℤ◌};
ghost use Rattle.std.specs.Int.{int_div_euclid};

/// `num / den`, towards minus infinity. Where both fit 64 bits it is a division of 64 bits.
pub fn floor(num: i128, den: i128) -> i128
    requires { pos 1 ≤ℤ den }
    ensures { result ≡ int_div_euclid num den }
{
    match (i64::try_from(num), i64::try_from(den)) {
        (Ok(num), Ok(den)) => i128::from(num.div_euclid(den)),
        _ => num.div_euclid(den),
    }
}
