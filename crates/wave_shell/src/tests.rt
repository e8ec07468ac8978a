ghost use Rattle.std.specs.Prelude.{◌<◌, map, string_bytes, Contains, IfSome, IsTrue};
ghost use Rattle.outside.specs.MemShelf.{names_of};
ghost use Rattle.wave_shell.specs.Words.{deck_name, script_name};

use crate::words::files;
use crate::*;
use outside::{MemShelf, MemSink};
use std::alloc::{AllocError, Global};
use std::process::Abort;
use std::test::Fail;

const DECK: &[u8] =
    b"rc\nV1 a 0 1\nR1 a b 1k\nC1 b 0 1p\n.IC V(b)=0\n.OPTIONS GRAIN=100m\n.TRAN 1p 1n\n.END\n";

const WAVES: &[u8] = b"version 0\nwave a 1\n0 1000000 1000000 0 1\nwave b 7\n\
    0 0 0 1000000000 1000000\n51 51000 51000000000 900000000 1000000\n\
    162 150900 150900000000 800000000 1000000\n286 250100 250100000000 700000000 1000000\n\
    429 350200 350200000000 600000000 1000000\n596 450400 450400000000 500000000 1000000\n\
    796 550400 550400000000 400000000 1000000\n";

const UNFIT: &[u8] = b"words do not fit the command\n";

// How many bytes a call of the shelf gives at most, and how many one of the sink takes.
const PIECE: usize = 16;

// A shelf with one name, where a call on it fails that has one of these numbers.
fn shelf_of(
    alloc: Global,
    name: &str,
    bytes: Option<Vec<u8>>,
    most: usize,
    failing: &[u64],
) -> Result<MemShelf, AllocError>
    requires { 0 < most }
{
    let mut files = Vec::new(alloc);
    files.push((String::from_str(alloc, name)?, bytes))?;
    let mut calls = Vec::new(alloc);
    for number in failing {
        calls.push((String::from_str(alloc, name)?, *number))?;
    }
    MemShelf::new(alloc, files, most, calls)
}

// A shelf with a deck and a script, where a call on the script fails that has one of these numbers.
fn shelf_of_two(
    alloc: Global,
    deck: &[u8],
    script: Option<Vec<u8>>,
    failing: &[u64],
) -> Result<MemShelf, AllocError> {
    let mut files = Vec::new(alloc);
    files.push((String::from_str(alloc, "b.sp")?, Some(deck.to_vec(alloc)?)))?;
    files.push((String::from_str(alloc, "b.edits")?, script))?;
    let mut calls = Vec::new(alloc);
    for number in failing {
        calls.push((String::from_str(alloc, "b.edits")?, *number))?;
    }
    MemShelf::new(alloc, files, PIECE, calls)
}

// Whether the shelf has the files that the words name.
fn has_the_files(shelf: &MemShelf, words: &[String]) -> bool
    ensures deck { IsTrue result → IfSome (deck_name (map string_bytes words.now)) (λ name.
        Contains (names_of shelf.now) name) }
    ensures script { IsTrue result → IfSome (script_name (map string_bytes words.now)) (λ name.
        Contains (names_of shelf.now) name) }
{
    let Some(names) = files(words) else {
        return true;
    };
    match names.script {
        None => shelf.has(names.deck),
        Some(script) => shelf.has(names.deck) && shelf.has(script),
    }
}

// Runs the program: the status, and what was written into a sink whose calls of these numbers fail.
fn run_on(
    rt: &impl Abort,
    alloc: Global,
    texts: &[&str],
    mut shelf: MemShelf,
    failing: &[u64],
) -> Result<(Status, Vec<u8>), AllocError> {
    let mut words = Vec::new(alloc);
    for text in texts {
        words.push(String::from_str(alloc, text)?)?;
    }
    assert!(rt; has_the_files(&shelf, &words));
    let mut sink = MemSink::new(alloc, 65536, PIECE, failing.to_vec(alloc)?)?;
    let status = run_alone(alloc, &words, &mut shelf, &mut sink);
    Ok((status, sink.written().to_vec(alloc)?))
}

#[test]
fn prints_the_waves(rt: HostRuntime) -> Result<(), Fail> {
    let alloc = rt.alloc();
    let shelf = shelf_of(alloc, "b.sp", Some(DECK.to_vec(alloc)?), PIECE, &[])?;
    let (status, written) = run_on(&rt, alloc, &["b.sp"], shelf, &[])?;
    assert_eq!(rt; written.as_slice(), WAVES, "{status:?}");
    assert_eq!(rt; status, Status::Ok);
    Ok(())
}

#[test]
fn answers_the_deck(rt: HostRuntime) -> Result<(), Fail> {
    let alloc = rt.alloc();
    let at_once =
        b"rc\nV1 a 0 1\nR1 a b 1k\nC1 b 0 1p\n.IC V(b)=0\n.OPTIONS GRAIN=100m\n.TRAN 1p 0\n.END\n";
    let cases: [(Vec<u8>, Status, &[u8]); 4] = [
        (
            at_once.to_vec(alloc)?,
            Status::Ok,
            b"version 0\nwave a 1\n0 1000000 1000000 0 1\nwave b 1\n0 0 0 1000000000 1000000\n",
        ),
        (
            b"rc\n.END\n".to_vec(alloc)?,
            Status::Deck,
            b"deck 2 no .TRAN\n",
        ),
        (
            vec![in alloc; b'x'; 16_777_216]?,
            Status::Deck,
            b"deck 1 no .END\n",
        ),
        (
            vec![in alloc; b'x'; 16_777_217]?,
            Status::Deck,
            b"deck 0 too long\n",
        ),
    ];
    for (bytes, want, text) in cases {
        let shelf = shelf_of(alloc, "b.sp", Some(bytes), usize::MAX, &[])?;
        let (status, written) = run_on(&rt, alloc, &["b.sp"], shelf, &[])?;
        assert_eq!(rt; written.as_slice(), text);
        assert_eq!(rt; status, want);
    }
    Ok(())
}

#[test]
fn answers_the_words(rt: HostRuntime) -> Result<(), Fail> {
    let alloc = rt.alloc();
    let twice = b"script 1 unknown command rc\n";
    let cases: [(&str, &[&str], Status, &[u8]); 12] = [
        ("b.sp", &[], Status::Words, UNFIT),
        ("b.sp", &["b.sp", "b.sp"], Status::Script, twice),
        ("b.sp", &["b.sp", "b.sp", "b.sp"], Status::Words, UNFIT),
        ("-x", &["-x"], Status::Words, UNFIT),
        ("-x", &["-x", "--"], Status::Words, UNFIT),
        ("-x", &["--", "-x"], Status::Ok, WAVES),
        ("-x", &["--", "-x", "-x"], Status::Script, twice),
        ("--", &["--"], Status::Words, UNFIT),
        ("--", &["--", "--"], Status::Ok, WAVES),
        ("b.sp", &["b.sp", "--"], Status::Ok, WAVES),
        ("-", &["-"], Status::Ok, WAVES),
        ("b-", &["b-"], Status::Ok, WAVES),
    ];
    for (name, words, want, text) in cases {
        let shelf = shelf_of(alloc, name, Some(DECK.to_vec(alloc)?), PIECE, &[])?;
        let (status, written) = run_on(&rt, alloc, words, shelf, &[])?;
        assert_eq!(rt; written.as_slice(), text, "{name}");
        assert_eq!(rt; status, want, "{name}");
    }
    Ok(())
}

#[test]
fn writes_nothing_where_the_deck_is_not_there(rt: HostRuntime) -> Result<(), Fail> {
    let alloc = rt.alloc();
    let shelf = shelf_of(alloc, "b.sp", None, PIECE, &[])?;
    let (status, written) = run_on(&rt, alloc, &["b.sp"], shelf, &[])?;
    assert_eq!(rt; written.len(), 0);
    assert_eq!(rt; status, Status::Read);
    Ok(())
}

#[test]
fn tells_the_first_fault_of_both_files(rt: HostRuntime) -> Result<(), Fail> {
    let alloc = rt.alloc();
    let no_stop = b"rc\n.END\n";
    let cases: [(&[u8], Vec<u8>, Status, &[u8]); 4] = [
        (
            DECK,
            b"* a comment\nrun\nset r1\njump\n".to_vec(alloc)?,
            Status::Script,
            b"script 3 wrong words\n",
        ),
        (
            no_stop,
            b"jump\n".to_vec(alloc)?,
            Status::Deck,
            b"deck 2 no .TRAN\n",
        ),
        (
            DECK,
            vec![in alloc; b'\n'; 16_777_217]?,
            Status::Script,
            b"script 0 too long\n",
        ),
        (
            no_stop,
            vec![in alloc; b'\n'; 16_777_217]?,
            Status::Deck,
            b"deck 2 no .TRAN\n",
        ),
    ];
    for (deck, script, want, text) in cases {
        let shelf = shelf_of_two(alloc, deck, Some(script), &[])?;
        let (status, written) = run_on(&rt, alloc, &["b.sp", "b.edits"], shelf, &[])?;
        assert_eq!(rt; written.as_slice(), text);
        assert_eq!(rt; status, want);
    }
    Ok(())
}

#[test]
fn writes_nothing_where_the_script_is_not_read(rt: HostRuntime) -> Result<(), Fail> {
    let alloc = rt.alloc();
    let missing = shelf_of_two(alloc, DECK, None, &[])?;
    let (status, written) = run_on(&rt, alloc, &["b.sp", "b.edits"], missing, &[])?;
    assert_eq!(rt; written.len(), 0);
    assert_eq!(rt; status, Status::Read);
    for call in 0..3 {
        let shelf = shelf_of_two(
            alloc,
            DECK,
            Some(b"look\nset r1 2000\n".to_vec(alloc)?),
            &[call],
        )?;
        let (status, written) = run_on(&rt, alloc, &["b.sp", "b.edits"], shelf, &[])?;
        assert_eq!(rt; written.len(), 0, "at call {call}");
        assert_eq!(rt; status, Status::Read, "at call {call}");
    }
    Ok(())
}

#[test]
fn ends_at_a_fault_of_reading(rt: HostRuntime) -> Result<(), Fail> {
    let alloc = rt.alloc();
    // The calls that give the deck, and the one that gives no byte more.
    let calls = DECK.len().div_ceil(PIECE) as u64 + 1;
    for call in 0..22 {
        let shelf = shelf_of(alloc, "b.sp", Some(DECK.to_vec(alloc)?), PIECE, &[call])?;
        let (status, written) = run_on(&rt, alloc, &["b.sp"], shelf, &[])?;
        if call < calls {
            assert_eq!(rt; written.len(), 0, "at call {call}");
            assert_eq!(rt; status, Status::Read, "at call {call}");
        } else {
            assert_eq!(rt; written.as_slice(), WAVES, "at call {call}");
            assert_eq!(rt; status, Status::Ok, "at call {call}");
        }
    }
    Ok(())
}

#[test]
fn ends_at_a_fault_of_writing(rt: HostRuntime) -> Result<(), Fail> {
    let alloc = rt.alloc();
    let texts = [
        (DECK, Status::Ok, WAVES),
        (
            b"rc\n".as_slice(),
            Status::Deck,
            b"deck 1 no .END\n".as_slice(),
        ),
    ];
    for (deck, want, text) in texts {
        for call in 0..22 {
            let shelf = shelf_of(alloc, "b.sp", Some(deck.to_vec(alloc)?), PIECE, &[])?;
            let (status, written) = run_on(&rt, alloc, &["b.sp"], shelf, &[call as u64])?;
            if call < text.len().div_ceil(PIECE) {
                assert_eq!(rt; written.len(), call * PIECE);
                assert!(rt; text.starts_with(&written), "at call {call}");
                assert_eq!(rt; status, Status::Write, "at call {call}");
            } else {
                assert_eq!(rt; written.as_slice(), text, "at call {call}");
                assert_eq!(rt; status, want, "at call {call}");
            }
        }
    }
    Ok(())
}

#[test]
fn numbers_the_statuses(rt: HostRuntime) {
    let statuses = [
        Status::Ok,
        Status::Memory,
        Status::Words,
        Status::Deck,
        Status::Script,
        Status::Read,
        Status::Write,
    ];
    for (number, status) in statuses.into_iter().enumerate() {
        assert_eq!(rt; status as usize, number);
    }
}
