ghost use Rattle.std.specs.Prelude.{◌≡◌, ◌≤◌, ◌<◌, ◌^◌, unsigned_abs};

use crate::{Histories, Line, Piece, Ramp};
use node_ramps::Steps;
use std::alloc::{AllocError, Global};
use std::marker::Brand;
use std::sync::ledger::{Blank, Ledger};
use std::test::Fail;

// Splices these ramps of node 1, where they are a piece that fits.
fn put(record: &mut Histories, from: u64, until: u64, ramps: Vec<Ramp>) -> Result<(), AllocError> {
    let Ok(piece) = Piece::of(1, from, until, ramps) else {
        return Ok(());
    };
    if record.keeps(piece.node()) && piece.until() <= record.stop() {
        record.splice(piece)?;
    }
    Ok(())
}

// The pairs of node 1 before the stop and at it, where it is kept.
fn pairs(alloc: Global, record: &Histories) -> Result<Vec<(i128, u64)>, AllocError> {
    let mut pairs = Vec::new(alloc);
    if record.keeps(1) {
        for tick in 0..record.stop() {
            pairs.push(record.at(1, tick))?;
        }
        pairs.push(record.at(1, record.stop()))?;
    }
    Ok(pairs)
}

// A node up to tick 6, with a piece that begins at its pair and rises.
fn risen<L: Ledger>(alloc: Global, blank: Blank) -> Result<Histories, AllocError>
    requires name { blank.name ≡ L.name }
    requires parts { blank.parts ≡ L.parts }
    requires some { 0 < blank.parts }
{
    let (book, share) = blank.open::<L>();
    let mut steps = Steps::of(book, share);
    let rising = Line {
        start: 2,
        num: 5,
        rate: 2,
        den: 1,
    };
    let mut record = Histories::new(alloc, 6);
    record.start(1, 5, 1)?;
    put(
        &mut record,
        2,
        4,
        vec![in alloc; Ramp::first(rising, &mut steps)]?,
    )?;
    Ok(record)
}

// Pieces at the stop, at tick 0, and of one tick with another denominator, whose first tick counts for nothing; and
// another pair at tick 0.
fn splice_more(alloc: Global, record: &mut Histories) -> Result<(), AllocError> {
    let last = vec![in alloc; Ramp::still(5, 0, 1), Ramp::still(6, 8, 1)]?;
    put(record, 5, 6, last)?;
    put(record, 0, 1, vec![in alloc; Ramp::still(0, 4, 1)]?)?;
    put(record, 2, 3, vec![in alloc; Ramp::still(2, 1, 3)]?)?;
    record.start(1, 6, 1)
}

#[test]
fn pieces(rt: HostRuntime) -> Result<(), Fail> {
    let mut record = risen::<Brand>(rt.alloc(), Blank::new(1))?;
    let shared = record.share()?;
    splice_more(rt.alloc(), &mut record)?;
    let spliced = [(6, 1), (4, 1), (5, 1), (1, 3), (9, 1), (5, 1), (8, 1)];
    let before = [(5, 1), (5, 1), (5, 1), (7, 1), (9, 1), (5, 1), (5, 1)];
    assert_eq!(rt; pairs(rt.alloc(), &record)?.as_slice(), spliced.as_slice());
    assert_eq!(rt; pairs(rt.alloc(), &shared)?.as_slice(), before.as_slice());
    Ok(())
}

// The rate and the end of the line at tick 3 of a node that is level up to there, and from tick 4 on higher by a jump;
// and the end of its line at tick 4.
fn jump(alloc: Global, by: i128) -> Result<Option<(i128, u64, u64)>, AllocError>
    requires { unsigned_abs by ≤ 10 ^ 16 }
{
    let mut record = Histories::new(alloc, 6);
    record.start(1, 5, 1)?;
    put(
        &mut record,
        3,
        6,
        vec![in alloc; Ramp::still(3, 5 + by, 1)]?,
    )?;
    if !record.keeps(1) || record.stop() < 4 {
        return Ok(None);
    }
    let line = record.line(1, 3);
    Ok(Some((line.rate, record.line_end(1, 3), record.line_end(1, 4))))
}

#[test]
fn jumps(rt: HostRuntime) -> Result<(), Fail> {
    let most = 1_000_000_000_000_000;
    assert_eq!(rt; jump(rt.alloc(), most)?, Some((most, 4, 6)));
    assert_eq!(rt; jump(rt.alloc(), most + 1)?, Some((0, 3, 6)));
    Ok(())
}

// The wave of a node that was only started.
fn level(alloc: Global, stop: u64) -> Result<Vec<Line>, AllocError>
    requires { stop ≤ 10 ^ 10 }
{
    let mut record = Histories::new(alloc, stop);
    record.start(0, -7, 2)?;
    record.canonical(0)
}

#[test]
fn waves(rt: HostRuntime) -> Result<(), Fail> {
    let line = Line {
        start: 0,
        num: -7,
        rate: 0,
        den: 2,
    };
    assert_eq!(rt; level(rt.alloc(), 0)?.as_slice(), [line].as_slice());
    assert_eq!(rt; level(rt.alloc(), 6)?.as_slice(), [line].as_slice());
    Ok(())
}
