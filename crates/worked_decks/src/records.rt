//! A record at its stop.

use histories::{Histories, Piece, Ramp};
use std::alloc::{AllocError, Global};
use std::test::Fail;

/// Gives node 1 another pair at tick 6, where the record keeps it and goes as far.
fn rise(alloc: Global, record: &mut Histories) -> Result<(), AllocError> {
    let ramps = vec![in alloc; Ramp::still(5, 5, 1), Ramp::still(6, 8, 1)]?;
    match Piece::of(1, 5, 6, ramps) {
        Ok(piece) if record.keeps(piece.node()) && piece.until() <= record.stop() => {
            record.splice(piece)
        }
        _ => Ok(()),
    }
}

/// The rate and the end of the lines of node 1 at ticks 5 and 6, up to which the record goes.
fn last_lines(alloc: Global) -> Result<Option<[(i128, u64); 2]>, AllocError> {
    let mut record = Histories::new(alloc, 6);
    record.start(1, 5, 1)?;
    rise(alloc, &mut record)?;
    if !record.keeps(1) || record.stop() != 6 {
        return Ok(None);
    }
    let before = (record.line(1, 5).rate, record.line_end(1, 5));
    let last = (record.line(1, 6).rate, record.line_end(1, 6));
    Ok(Some([before, last]))
}

#[test]
fn the_last_line_is_level(rt: HostRuntime) -> Result<(), Fail> {
    assert_eq!(rt; last_lines(rt.alloc())?, Some([(3, 6), (0, 6)]));
    Ok(())
}
