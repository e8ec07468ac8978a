ghost use Rattle.std.specs.Prelude.{◌≡◌, ◌-◌, ◌<◌, ◌++◌, ◌||◌, min, length, take, drop, is_none, is_err, option_map, vec_items, string_bytes, IfOk, IfSome, OnErr};
ghost use Rattle.std.specs.Io.{ReadsAtMost};
ghost use Rattle.std.specs.Str.{bytes_eq};
ghost use Rattle.outside.specs.Causes.{HasCause};
ghost use Rattle.outside.specs.Content.{GivesFrom, GivesNoneOnlyAtEnd};

use crate::Failed;
use std::marker::Model;

/// A name and its bytes, where there is such a file, with the counts of its calls and of those that failed.
#[derive(Debug, Drop)]
pub(crate) struct MemFile {
    name: String,
    bytes: Option<Vec<u8>>,
    calls: u64,
    faults: u64,
}

impl Model for MemFile {
    ghost use Rattle.std.specs.Prelude.{option_map, vec_items, string_bytes};
    ghost use Rattle.outside.specs.MemFile.{FileState};

    ghost Value = { FileState };

    ghost view = { λ f. record { name = string_bytes f.name; bytes = option_map vec_items f.bytes; calls = f.calls; faults = f.faults } };
}

impl MemFile {
    ghost use Rattle.outside.specs.MemFile.{untouched, after_call};
    ghost use Rattle.outside.specs.MemShelf.{count_given};

    pub(crate) fn new(name: String, bytes: Option<Vec<u8>>) -> Self
        ensures { result ≡ untouched (string_bytes name) (option_map vec_items bytes) }
    {
        MemFile {
            name,
            bytes,
            calls: 0,
            faults: 0,
        }
    }

    pub(crate) fn is_named(&self, name: &str) -> bool
        ensures { result ≡ bytes_eq self.now.name name.now }
    {
        self.name.as_str() == name
    }

    /// How many calls there were: the number of the next one.
    pub(crate) fn calls(&self) -> u64
        ensures { result ≡ self.now.calls }
    {
        self.calls
    }

    /// Makes a call, which fails where it is listed or there is no such file.
    pub(crate) fn read(
        &mut self,
        is_listed: bool,
        most: usize,
        at: u64,
        buf: &mut [u8],
    ) -> Result<usize, Failed>
        requires { 0 < most }

        ensures bound { ReadsAtMost result buf.new }
        ensures from { IfOk result (λ n. GivesFrom self.old.bytes at n buf.new) }
        ensures end { IfOk result (λ n. GivesNoneOnlyAtEnd self.old.bytes at n buf.new) }
        ensures cause { HasCause self.old.faults self.new.faults result }

        ensures fault { is_err result ≡ (is_none self.old.bytes || is_listed) }
        ensures counts { self.new ≡ after_call (is_err result) self.old }
        ensures count { IfOk result (λ n. IfSome self.old.bytes (λ xs. n ≡ count_given most (length buf.old) (length xs - at))) }
        ensures filled { IfOk result (λ n. IfSome self.old.bytes (λ xs. buf.new ≡ take n (drop at xs) ++ drop n buf.old)) }
        ensures untouched { OnErr result (buf.new ≡ buf.old) }
    {
        self.calls = self.calls.saturating_add(1);
        match &self.bytes {
            Some(bytes) if !is_listed => Ok(give(bytes, most, at, buf)),
            _ => {
                self.faults = self.faults.saturating_add(1);
                Err(Failed)
            }
        }
    }
}

/// Puts at most `most` of the bytes from the place `at` on into the front of `buf`, and says how many.
fn give(bytes: &[u8], most: usize, at: u64, buf: &mut [u8]) -> usize
    ensures count { result ≡ min most (min (length buf.old) (length bytes.now - at)) }
    ensures filled { buf.new ≡ take result (drop at bytes.now) ++ drop result buf.old }
    ensures from { take result buf.new ≡ take result (drop at bytes.now) }
{
    let rest = &bytes[bytes.len().min(at as usize)..];
    let count = most.min(buf.len().min(rest.len()));
    buf[..count].copy_from_slice(&rest[..count]);
    count
}
