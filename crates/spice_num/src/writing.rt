ghost use Rattle.std.specs.Prelude.{◌≡◌, ℤ, ◌^◌, ◌<◌, IfOk, Ok, string_bytes, unsigned_abs};
ghost use Rattle.spice_num.specs.declared.units.Unit.{Unit as NumUnit};
ghost use Rattle.spice_num.specs.Number.{number_of, number_text};

use crate::units::Unit;
use std::alloc::{AllocError, Global};

/// Writes a number of the unit: a minus sign where it is negative, its digits, and a suffix that
/// stands for the unit, as `-7u` for -7 microvolts.
///
/// The only error is want of memory.
pub fn write_number(alloc: Global, value: i128, unit: Unit) -> Result<String, AllocError>
    requires { unsigned_abs value < 10 ^ 18 }
    ensures text { IfOk result (λ s. string_bytes s ≡ number_text value unit) }
    ensures reads_back { IfOk result (λ s. number_of unit (string_bytes s) ≡ Ok value) }
{
    let suffix = unit.suffix();
    format!(in alloc; "{value}{suffix}")
}

/// A law: the text that is written for a number of at most 18 digits reads back as that number, in
/// every unit. It runs nothing.
pub fn written_reads_back()
    ensures { (value : ℤ) → (unit : NumUnit) → unsigned_abs value < 10 ^ 18
        → number_of unit (number_text value unit) ≡ Ok value }
{}
