ghost use Rattle.std.specs.Prelude.{ℕ, ◌<◌, List, Option, length, IfOk, OnOk, OnErr};
ghost use Rattle.std.specs.Io.{WritesAtMost};
ghost use Rattle.std.specs.Io.KnownBytes.{Appends, WriteAppends};
ghost use Rattle.outside.specs.Causes.{HasCause};
ghost use Rattle.outside.specs.Content.{AppendsFront};

use crate::Failed;

/// A place that bytes are written to, one behind the other.
pub trait Sink {
    /// The bytes that were written, where the sink tells them.
    ghost written: { Self → Option (List ℕ) };

    /// How many faults writing has met. It never falls.
    ghost faults: { Self → ℕ };

    /// Appends a front of `buf`, and says how many bytes it took: at least one, where `buf` has any.
    /// After `Failed` nothing was appended.
    fn write(&mut self, buf: &[u8]) -> Result<usize, Failed>
        ensures bound { WritesAtMost result buf.now }
        ensures progress { 0 < length buf.now → IfOk result (λ n. 0 < n) }
        ensures written { WriteAppends (written self.old) (written self.new) result buf.now }

        // The count does not fall, and `Failed` comes only where it rose.
        ensures cause { HasCause (faults self.old) (faults self.new) result };
}

/// Appends all of `text`. After `Failed`, which comes only where the sink's count of faults rose, a front of it.
pub fn write_all<K: Sink>(sink: &mut K, text: &[u8]) -> Result<(), Failed>
    ensures all { OnOk result (Appends (K.written sink.old) (K.written sink.new) text.now) }
    ensures front { OnErr result (AppendsFront (K.written sink.old) (K.written sink.new) text.now) }
    ensures cause { HasCause (K.faults sink.old) (K.faults sink.new) result }
{
    let mut rest = text;
    while !rest.is_empty() {
        let count = sink.write(rest)?;
        rest = &rest[count..];
    }
    Ok(())
}
