ghost use Rattle.std.specs.Prelude.{◌≡◌};
ghost use Rattle.std.specs.Io.{WritesAtMost};

use crate::{Failed, Sink};
use std::io::{self, ErrorKind};
use std::marker::Model;

/// The standard output as a sink, which contracts see as its count of faults.
///
/// It tells no bytes. A call fails where the system does not write or takes no byte of some; an interrupted call is
/// made again. The count stops at the largest `u64`.
#[derive(Drop)]
pub struct OutSink<P: Print + Drop> {
    out: P,
    faults: u64,
}

impl<P: Print + Drop> Model for OutSink<P> {
    ghost use Rattle.std.specs.Prelude.{ℕ};

    ghost Value = { ℕ };

    ghost view = { λ s. s.faults };
}

impl<P: Print + Drop> OutSink<P> {
    /// A sink over the output that `out` prints to, with no fault yet. It takes no memory.
    pub fn new(out: P) -> OutSink<P>
        ensures { result ≡ 0 }
    {
        OutSink { out, faults: 0 }
    }
}

impl<P: Print + Drop> Sink for OutSink<P> {
    ghost use Rattle.std.specs.Prelude.{None};

    ghost written = { λ _. None };

    ghost faults = { λ s. s };

    fn write(&mut self, buf: &[u8]) -> Result<usize, Failed> {
        match write_some(&self.out, buf) {
            Ok(count) if count > 0 || buf.is_empty() => Ok(count),
            _ => {
                self.faults = self.faults.saturating_add(1);
                Err(Failed)
            }
        }
    }
}

/// Writes once, and again where the system was interrupted.
fn write_some<P: Print>(out: &P, buf: &[u8]) -> io::Result<usize>
    ensures { WritesAtMost result buf.now }
{
    for _ in 0..u64::MAX {
        match out.write_some(buf) {
            Err(error) if error.kind() == ErrorKind::Interrupted => {}
            answer => return answer,
        }
    }
    Err(ErrorKind::Interrupted.into())
}
