ghost use Rattle.std.specs.Prelude.{◌≡◌, ◌↔◌, map, position, All, Contains, string_bytes, IsTrue, IfOk};
ghost use Rattle.std.specs.Str.{bytes_eq};

use crate::shelf_file::ShelfFile;
use crate::{Failed, Shelf};
use std::alloc::{AllocError, Global};
use std::marker::Model;
use std::rt::Files;

/// A shelf of files: a name is a path, and its bytes are those of the file there.
///
/// It tells no bytes. The first call on a name opens the file, and the next ones keep it. A call fails where the
/// system does not open or read the file; an interrupted one is made again. The count of faults of a name stops at
/// the largest `u64`.
#[derive(Drop)]
pub struct FileShelf<R: Files + Drop> {
    rt: R,
    files: Vec<ShelfFile<R::File>>,
}

impl<R: Files + Drop> Model for FileShelf<R> {
    ghost use Rattle.std.specs.Prelude.{List};
    ghost use Rattle.outside.specs.FileShelf.{NameState};

    ghost Value = { List NameState };

    ghost view = { λ s. s.files.items };
}

impl<R: Files + Drop> FileShelf<R> {
    ghost use Rattle.outside.specs.FileShelf.{names_of};

    /// A shelf whose names are the words, with no fault yet. It opens files by `rt`.
    pub fn of(rt: R, alloc: Global, words: &[String]) -> Result<FileShelf<R>, AllocError>
        ensures names { IfOk result (λ shelf. names_of shelf ≡ map string_bytes words.now) }
        ensures faults { IfOk result (λ shelf. All (λ f. f.faults ≡ 0) shelf) }
    {
        let mut files = Vec::new(alloc);
        for word in words {
            files.push(ShelfFile::new(word.clone()?))?;
        }
        Ok(FileShelf { rt, files })
    }

    /// Whether this is one of the names.
    pub fn has(&self, name: &str) -> bool
        ensures { IsTrue result ↔ Contains (names_of self.now) name.now }
    {
        place_of(&self.files, name).is_some()
    }
}

impl<R: Files + Drop> Shelf for FileShelf<R> {
    ghost use Rattle.std.specs.Prelude.{None};
    ghost use Rattle.outside.specs.FileShelf.{names_of, faults_of};

    ghost names = { names_of };

    ghost bytes = { λ _ _. None };

    ghost faults = { faults_of };

    fn read(&mut self, name: &str, at: u64, buf: &mut [u8]) -> Result<usize, Failed> {
        let index = place_of(&self.files, name).unwrap();
        self.files[index].read(&self.rt, at, buf)
    }
}

/// The place of the first file of this name.
fn place_of<F: Drop>(files: &[ShelfFile<F>], name: &str) -> Option<usize>
    ensures { result ≡ position (λ f. bytes_eq f.name name.now) files.now }
{
    files.iter().position(|file| file.is_named(name))
}
