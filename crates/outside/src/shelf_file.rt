ghost use Rattle.std.specs.Prelude.{◌≡◌, string_bytes};
ghost use Rattle.std.specs.Io.{ReadsAtMost};
ghost use Rattle.std.specs.Str.{bytes_eq};
ghost use Rattle.outside.specs.Causes.{HasCause};

use crate::Failed;
use std::fs;
use std::io::{self, ErrorKind, Read, Seek, SeekFrom};
use std::marker::Model;
use std::rt::Files;

/// A name with its count of faults, and the file of that name once it was opened.
#[derive(Drop)]
pub(crate) struct ShelfFile<F: Drop> {
    name: String,
    faults: u64,
    opened: Option<F>,
}

impl<F: Drop> Model for ShelfFile<F> {
    ghost use Rattle.std.specs.Prelude.{string_bytes};
    ghost use Rattle.outside.specs.FileShelf.{NameState};

    ghost Value = { NameState };

    ghost view = { λ f. record { name = string_bytes f.name; faults = f.faults } };
}

impl<F: Drop> ShelfFile<F> {
    ghost use Rattle.outside.specs.FileShelf.{unread};

    pub(crate) fn new(name: String) -> Self
        ensures { result ≡ unread (string_bytes name) }
    {
        ShelfFile {
            name,
            faults: 0,
            opened: None,
        }
    }

    pub(crate) fn is_named(&self, name: &str) -> bool
        ensures { result ≡ bytes_eq self.now.name name.now }
    {
        self.name.as_str() == name
    }

    /// Reads from the place `at` on. The first call opens the file, and the next ones keep it.
    pub(crate) fn read<R: Files<File = F>>(
        &mut self,
        rt: &R,
        at: u64,
        buf: &mut [u8],
    ) -> Result<usize, Failed>
    where
        F: Read + Seek,
        ensures bound { ReadsAtMost result buf.new }
        ensures name { self.new.name ≡ self.old.name }
        ensures cause { HasCause self.old.faults self.new.faults result }
    {
        match read_kept(rt, &mut self.opened, self.name.as_str(), at, buf) {
            Ok(count) => Ok(count),
            Err(_) => {
                self.faults = self.faults.saturating_add(1);
                Err(Failed)
            }
        }
    }
}

fn read_kept<R: Files>(
    rt: &R,
    opened: &mut Option<R::File>,
    name: &str,
    at: u64,
    buf: &mut [u8],
) -> io::Result<usize>
    ensures { ReadsAtMost result buf.new }
{
    let mut file = match opened.take() {
        Some(file) => file,
        None => fs::open(rt, name)?,
    };
    let answer = read_at(&mut file, at, buf);
    *opened = Some(file);
    answer
}

/// Reads once from the place `at` on, and again where the system was interrupted.
fn read_at<F: Read + Seek>(file: &mut F, at: u64, buf: &mut [u8]) -> io::Result<usize>
    ensures { ReadsAtMost result buf.new }
{
    file.seek(SeekFrom::Start(at))?;
    for _ in 0..u64::MAX {
        match file.read(buf) {
            Err(error) if error.kind() == ErrorKind::Interrupted => {}
            answer => return answer,
        }
    }
    Err(ErrorKind::Interrupted.into())
}

#[cfg(test)]
mod tests {
    use super::*;
    use std::test::Fail;

    // A file that is interrupted at first, and then gives one byte a call.
    #[derive(Drop)]
    struct Halting {
        calls: u32,
    }

    impl Read for Halting {
        fn read(&mut self, buf: &mut [u8]) -> io::Result<usize> {
            let call = self.calls;
            self.calls = call.saturating_add(1);
            if call == 0 {
                return Err(ErrorKind::Interrupted.into());
            }
            Ok(buf.len().min(1))
        }
    }

    impl Seek for Halting {
        fn seek(&mut self, _: SeekFrom) -> io::Result<u64> {
            Ok(0)
        }
    }

    #[test]
    fn tries_again(rt: HostRuntime) -> Result<(), Fail> {
        let mut file = Halting { calls: 0 };
        assert_eq!(rt; read_at(&mut file, 0, &mut [0; 4])?, 1);
        assert_eq!(rt; file.calls, 2);
        Ok(())
    }
}
