ghost use Rattle.std.specs.Prelude.{◌<◌};

use crate::*;
use std::alloc::{AllocError, Global};
use std::cell::Cell;
use std::fmt::Display;
use std::fs;
use std::io::{self, ErrorKind};
use std::test::Fail;

// A shelf with the file `b.sp`, of whose calls those with these numbers fail.
fn shelf_of(
    alloc: Global,
    bytes: Option<Vec<u8>>,
    most: usize,
    failing: &[u64],
) -> Result<MemShelf, AllocError>
    requires { 0 < most }
{
    let mut files = Vec::new(alloc);
    files.push((String::from_str(alloc, "b.sp")?, bytes))?;
    let mut calls = Vec::new(alloc);
    for number in failing {
        calls.push((String::from_str(alloc, "b.sp")?, *number))?;
    }
    MemShelf::new(alloc, files, most, calls)
}

#[test]
fn reads_whole(rt: HostRuntime) -> Result<(), Fail> {
    let alloc = rt.alloc();
    // Two bytes a call: the calls are "ab", "cd", "e" and the end.
    let cases: [(&[u64], Option<ReadRefusal>); 4] = [
        (&[], None),
        (&[1], Some(ReadRefusal::Failed)),
        (&[3], Some(ReadRefusal::Failed)),
        (&[4], None),
    ];
    for (failing, want) in cases {
        let mut shelf = shelf_of(alloc, Some(b"abcde".to_vec(alloc)?), 2, failing)?;
        assert!(rt; shelf.has("b.sp"));
        match read_whole(alloc, &mut shelf, "b.sp") {
            Ok(bytes) => {
                assert_eq!(rt; bytes.as_slice(), b"abcde".as_slice());
                assert_eq!(rt; None, want);
            }
            Err(refusal) => assert_eq!(rt; Some(refusal), want),
        }
    }
    Ok(())
}

#[test]
fn refuses_what_is_too_long_or_not_there(rt: HostRuntime) -> Result<(), Fail> {
    let alloc = rt.alloc();
    let cases = [
        (Some(READ_LIMIT), None),
        (Some(READ_LIMIT + 1), Some(ReadRefusal::TooLong)),
        (None, Some(ReadRefusal::Failed)),
    ];
    for (len, want) in cases {
        let bytes = match len {
            Some(len) => Some(vec![in alloc; 7u8; len]?),
            None => None,
        };
        let mut shelf = shelf_of(alloc, bytes, usize::MAX, &[])?;
        assert!(rt; shelf.has("b.sp"));
        assert!(rt; !shelf.has("c.sp"));
        let refusal = read_whole(alloc, &mut shelf, "b.sp").err();
        assert_eq!(rt; refusal, want);
    }
    Ok(())
}

#[test]
fn writes_all_or_a_front(rt: HostRuntime) -> Result<(), Fail> {
    let alloc = rt.alloc();
    let cases: [(usize, usize, &[u64], bool, &[u8]); 5] = [
        (5, 2, &[], true, b"abcde"),
        (9, 9, &[1], true, b"abcde"),
        (4, 2, &[], false, b"abcd"),
        (5, 2, &[0], false, b""),
        (5, 2, &[2], false, b"abcd"),
    ];
    for (room, most, failing, is_whole, want) in cases {
        assert!(rt; most > 0);
        let mut sink = MemSink::new(alloc, room, most, failing.to_vec(alloc)?)?;
        assert_eq!(rt; write_all(&mut sink, b"abcde").is_ok(), is_whole);
        assert_eq!(rt; sink.written(), want);
    }
    Ok(())
}

#[test]
fn reads_a_file(rt: HostRuntime) -> Result<(), Fail> {
    let alloc = rt.alloc();
    let there = "outside_reads_a_file.tmp";
    fs::write(&rt, there, "abcde")?;
    let names = vec![in alloc;
        String::from_str(alloc, there)?,
        String::from_str(alloc, "not/there")?,
    ]?;
    let mut shelf = FileShelf::of(&rt, alloc, &names)?;
    assert!(rt; shelf.has(there));
    assert!(rt; shelf.has("not/there"));
    let bytes = read_whole(alloc, &mut shelf, there)?;
    let missing = read_whole(alloc, &mut shelf, "not/there").err();
    fs::remove_file(&rt, there)?;
    assert_eq!(rt; bytes.as_slice(), b"abcde".as_slice());
    assert_eq!(rt; missing, Some(ReadRefusal::Failed));
    Ok(())
}

#[test]
fn writes_to_standard_output(rt: HostRuntime) -> Result<(), Fail> {
    write_all(&mut OutSink::new(&rt), b"a line\n")?;
    Ok(())
}

// An output that is interrupted at first, then takes one byte, and then no more.
#[derive(Drop)]
struct Halting {
    calls: Cell<u32>,
}

impl Print for Halting {
    fn print<D: Display + Drop>(&self, _: D) -> io::Result<()> {
        Ok(())
    }

    fn println<D: Display + Drop>(&self, _: D) -> io::Result<()> {
        Ok(())
    }

    fn write_all(&self, _: &[u8]) -> io::Result<()> {
        Ok(())
    }

    fn write_some(&self, bytes: &[u8]) -> io::Result<usize> {
        let call = self.calls.get();
        self.calls.set(call.saturating_add(1));
        match call {
            0 => Err(ErrorKind::Interrupted.into()),
            1 => Ok(bytes.len().min(1)),
            _ => Ok(0),
        }
    }
}

#[test]
fn tries_again_and_counts_no_byte_as_a_fault(rt: HostRuntime) {
    let mut sink = OutSink::new(Halting {
        calls: Cell::new(0),
    });
    assert_eq!(rt; sink.write(b"ab"), Ok(1));
    assert_eq!(rt; sink.write(b"b"), Err(Failed));
}
