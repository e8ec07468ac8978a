use crate::Spans;
use std::alloc::{AllocError, Global};
use std::test::Fail;

// Spans that are added apart, behind, in front and across, with one cut out of their middle and one at an end.
fn changed(alloc: Global) -> Result<Spans, AllocError> {
    let mut spans = Spans::new(alloc);
    spans.add(10, 12)?;
    spans.add(20, 22)?;
    spans.add(22, 25)?;
    spans.add(0, 3)?;
    spans.add(11, 21)?;
    spans.cut(14, 16)?;
    spans.cut(2, 11)?;
    Ok(spans)
}

// Those, and spans that touch one, that overlap one and touch the next, and that lie apart.
fn joined(alloc: Global) -> Result<Spans, AllocError> {
    let mut other = Spans::new(alloc);
    other.add(2, 4)?;
    other.add(13, 16)?;
    other.add(30, 31)?;
    let mut spans = changed(alloc)?;
    spans.join(&other)?;
    Ok(spans)
}

#[test]
fn ticks(rt: HostRuntime) -> Result<(), Fail> {
    let spans = changed(rt.alloc())?.copy()?;
    assert_eq!(rt; spans.least(), Some(0));
    let from = [2, 14, 24, 25].map(|tick| spans.least_from(tick));
    assert_eq!(rt; from, [Some(11), Some(16), Some(24), None]);
    let has = [1, 2, 10, 11, 13, 14, 15, 16, 24, 25].map(|tick| spans.has(tick));
    assert_eq!(rt;
        has,
        [
            true, false, false, true, true, false, false, true, true, false
        ]
    );
    let all = joined(rt.alloc())?;
    let has = [1, 3, 4, 10, 11, 14, 24, 25, 30, 31].map(|tick| all.has(tick));
    assert_eq!(rt;
        has,
        [
            true, true, false, false, true, true, true, false, true, false
        ]
    );
    assert_eq!(rt; Spans::new(rt.alloc()).least(), None);
    Ok(())
}
