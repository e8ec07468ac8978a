ghost use Rattle.std.specs.Prelude.{◌≡◌, ◌<◌, [], ◌∷◌, length, slice_get, Some, IfOk, IsTrue};
ghost use Rattle.std.specs.Result.{result_err};
ghost use Rattle.semantics.specs.Points.{rising_times, wave_refusal};

use std::alloc::{AllocError, Global};
use std::marker::Model;
use thiserror::Error;

/// Why a list of points is no voltage of a source.
#[derive(Clone, Copy, Debug, PartialEq, Eq, Error)]
pub enum WaveRefusal {
    /// There is no point.
    #[error("no points")]
    NoPoints,
    /// The tick of a point is not above that of the point before it.
    #[error("times not rising")]
    TimesNotRising,
}

/// The voltage that a source holds between its nodes, as points of a tick and a voltage in microvolts: level before the
/// first and after the last, and straight between two neighbours. A contract sees it as the list of its points. There
/// is at least one, and their ticks rise.
#[derive(Drop)]
pub struct Wave {
    points: Vec<(u64, i64)>,
}

impl Model for Wave {
    ghost use Rattle.std.specs.Prelude.{◌<◌, ℕ, ℤ, List, length, IsTrue};
    ghost use Rattle.semantics.specs.Points.{rising_times};

    ghost Value = { List (ℕ × ℤ) };

    ghost view = { λ w. w.points.items };

    ghost invariant = { λ w. (0 < length w.points.items) × IsTrue (rising_times w.points.items) };
}

impl Wave {
    /// A constant voltage: the one point at tick 0.
    pub fn dc(alloc: Global, volts: i64) -> Result<Wave, AllocError>
        ensures { IfOk result (λ wave. wave ≡ (0, volts) ∷ []) }
    {
        Ok(Wave {
            points: vec![in alloc; (0, volts)]?,
        })
    }

    /// The voltage with these points.
    ///
    /// # Errors
    ///
    /// `NoPoints` where there are none, otherwise `TimesNotRising` where a tick is not above the one before it.
    #[tactic(auto, unfolding(crate::specs::Points::wave_refusal))]
    pub fn pwl(points: Vec<(u64, i64)>) -> Result<Wave, WaveRefusal>
        ensures wave { IfOk result (λ wave. wave ≡ points.items) }
        ensures cause { result_err result ≡ wave_refusal points.items }
    {
        if points.is_empty() {
            return Err(WaveRefusal::NoPoints);
        }
        if !are_rising(&points) {
            return Err(WaveRefusal::TimesNotRising);
        }
        Ok(Wave { points })
    }

    /// An equal wave.
    pub fn copy(&self) -> Result<Wave, AllocError>
        ensures { IfOk result (λ wave. wave ≡ self.now) }
    {
        Ok(Wave {
            points: self.points.clone()?,
        })
    }

    /// The number of points.
    pub fn len(&self) -> usize
        ensures points { result ≡ length self.now }
        ensures some { 0 < result }
        ensures rising { IsTrue (rising_times self.now) }
    {
        self.points.len()
    }

    /// The tick and the voltage of the point at this place.
    pub fn point(&self, place: usize) -> (u64, i64)
        requires { place < length self.now }
        ensures { slice_get self.now place ≡ Some result }
    {
        self.points[place]
    }

    /// All points.
    pub fn points(&self) -> &[(u64, i64)]
        ensures points { result.now ≡ self.now }
        ensures some { 0 < length self.now }
        ensures rising { IsTrue (rising_times self.now) }
    {
        self.points.as_slice()
    }
}

/// Whether each tick is above the one before it.
fn are_rising(points: &[(u64, i64)]) -> bool
    ensures { result ≡ rising_times points.now }
{
    let after = points.iter().skip(1);
    points
        .iter()
        .zip(after)
        .all(|(before, after)| before.0 < after.0)
}
