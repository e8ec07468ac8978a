ghost use Rattle.std.specs.Prelude.{◌≡◌, ◌↔◌, ◌<◌, ◌==◌, ◌&&◌, map, position, Contains, option_map, vec_items, string_bytes, IsTrue, IfOk};
ghost use Rattle.std.specs.List.{list_any};
ghost use Rattle.std.specs.Str.{bytes_eq};

use crate::mem_file::MemFile;
use crate::{Failed, Shelf};
use std::alloc::{AllocError, Global};
use std::marker::Model;

/// A shelf in memory, some of whose calls fail. It tells the bytes of the files that are there, and reading takes no
/// memory.
#[derive(Debug, Drop)]
pub struct MemShelf {
    files: Vec<MemFile>,
    most: usize,
    failing: Vec<(String, u64)>,
}

impl Model for MemShelf {
    ghost use Rattle.std.specs.Prelude.{◌<◌};
    ghost use Rattle.outside.specs.MemShelf.{ShelfState, listed_calls};

    ghost Value = { ShelfState };

    ghost view = { λ s. record { files = s.files.items; most = s.most; failing = listed_calls s.failing.items } };

    ghost invariant = { λ s. 0 < s.most };
}

impl MemShelf {
    ghost use Rattle.outside.specs.MemFile.{untouched};
    ghost use Rattle.outside.specs.MemShelf.{listed_calls, names_of};

    /// A shelf of these names. A name has bytes, or `None` where there is no such file.
    ///
    /// A call gives at most `most` bytes. It fails where there is no such file, and where `failing` has the name with
    /// the number of the call, which counts the calls on that name from 0 up to the largest `u64`. Where a name comes
    /// twice, its first file is read.
    pub fn new(
        alloc: Global,
        files: Vec<(String, Option<Vec<u8>>)>,
        most: usize,
        failing: Vec<(String, u64)>,
    ) -> Result<MemShelf, AllocError>
        requires { 0 < most }
        ensures files { IfOk result (λ shelf. shelf.files ≡ map (λ f. untouched (string_bytes f.0) (option_map vec_items f.1)) files.items) }
        ensures most { IfOk result (λ shelf. shelf.most ≡ most) }
        ensures failing { IfOk result (λ shelf. shelf.failing ≡ listed_calls failing.items) }
    {
        let files = files
            .into_iter()
            .map(|(name, bytes)| MemFile::new(name, bytes))
            .collect(alloc)?;
        Ok(MemShelf {
            files,
            most,
            failing,
        })
    }

    /// Whether this is one of the names.
    pub fn has(&self, name: &str) -> bool
        ensures { IsTrue result ↔ Contains (names_of self.now) name.now }
    {
        place_of(&self.files, name).is_some()
    }
}

impl Shelf for MemShelf {
    ghost use Rattle.std.specs.Prelude.{◌≡◌, ◌-◌, ◌<◌, ◌++◌, length, take, drop, Contains, is_err, option_map, IfOk, IfSome, OnErr};
    ghost use Rattle.std.specs.Io.{ReadsAtMost};
    ghost use Rattle.outside.specs.Causes.{HasCause};
    ghost use Rattle.outside.specs.Content.{GivesFrom, GivesNoneOnlyAtEnd, SameBytes, SameElsewhere};
    ghost use Rattle.outside.specs.MemFile.{after_call};
    ghost use Rattle.outside.specs.MemShelf.{names_of, bytes_of, faults_of, file_of, fails, count_given, SameRules, SameFiles};

    ghost names = { names_of };

    ghost bytes = { bytes_of };

    ghost faults = { faults_of };

    fn read(&mut self, name: &str, at: u64, buf: &mut [u8]) -> Result<usize, Failed>
        requires { Contains (names_of self.old) name.now }

        // What every shelf gives and leaves.
        ensures bound { ReadsAtMost result buf.new }
        ensures given { IfOk result (λ n. GivesFrom (bytes_of self.old name.now) at n buf.new) }
        ensures end { IfOk result (λ n. GivesNoneOnlyAtEnd (bytes_of self.old name.now) at n buf.new) }
        ensures names { names_of self.new ≡ names_of self.old }
        ensures bytes { SameBytes (bytes_of self.old) (bytes_of self.new) }
        ensures others { SameElsewhere name.now (faults_of self.old) (faults_of self.new) }
        ensures cause { HasCause (faults_of self.old name.now) (faults_of self.new name.now) result }

        // Which calls fail, and exactly what the others give.
        ensures fault { is_err result ≡ fails self.old name.now }
        ensures count { IfOk result (λ n. IfSome (bytes_of self.old name.now) (λ xs. n ≡ count_given self.old.most (length buf.old) (length xs - at))) }
        ensures filled { IfOk result (λ n. IfSome (bytes_of self.old name.now) (λ xs. buf.new ≡ take n (drop at xs) ++ drop n buf.old)) }
        ensures untouched { OnErr result (buf.new ≡ buf.old) }
        // The call is counted, and nothing else changes.
        ensures counts { file_of self.new name.now ≡ option_map (after_call (is_err result)) (file_of self.old name.now) }
        ensures other_files { SameFiles name.now self.old self.new }
        ensures rules { SameRules self.old self.new }
    {
        let index = place_of(&self.files, name).unwrap();
        let file = &mut self.files[index];
        let is_listed = is_listed(&self.failing, name, file.calls());
        file.read(is_listed, self.most, at, buf)
    }
}

/// The place of the first file of this name.
fn place_of(files: &[MemFile], name: &str) -> Option<usize>
    ensures { result ≡ position (λ f. bytes_eq f.name name.now) files.now }
{
    files.iter().position(|file| file.is_named(name))
}

/// Whether the call of this number on the name is listed.
fn is_listed(failing: &[(String, u64)], name: &str, number: u64) -> bool
    ensures { result ≡ list_any (λ call. bytes_eq (string_bytes call.0) name.now && (call.1 == number)) failing.now }
{
    failing
        .iter()
        .any(|(listed, k)| listed.as_str() == name && *k == number)
}
