use crate::{Queue, merge};
use std::alloc::{AllocError, Global};
use std::test::Fail;

// Four devices at three ticks, of which one is moved and one is taken out: the first tick, what waits for it, and the
// tick that is then the first.
#[tactic(auto, using(crate::proofs::Rising::steps))]
fn turns(alloc: Global) -> Result<(Option<u64>, Vec<u32>, Option<u64>), AllocError> {
    let mut queue = Queue::new(alloc);
    queue.put(7, 3)?;
    queue.put(1000, 0)?;
    queue.put(7, 1)?;
    queue.put(5, 2)?;
    queue.move_to(2, 7)?;
    queue.remove(1);
    let first = queue.first();
    let mut out = Vec::with_capacity(alloc, 5)?;
    queue.take_tick(7, &mut out);
    Ok((first, out, queue.first()))
}

#[test]
fn devices_in_order(rt: HostRuntime) -> Result<(), Fail> {
    let (first, out, next) = turns(rt.alloc())?;
    assert_eq!(rt; first, Some(7));
    assert_eq!(rt; out.as_slice(), [2, 3].as_slice());
    assert_eq!(rt; next, Some(1000));
    Ok(())
}

// Two lists with a pair in common.
fn merged(alloc: Global) -> Result<Vec<(u64, u32)>, AllocError> {
    let first = vec![in alloc; (7, 1), (2, 9)]?;
    let second = vec![in alloc; (7, 0), (2, 9), (10, 0)]?;
    let lists = vec![in alloc; first, second]?;
    merge(alloc, &lists)
}

#[test]
fn pairs_in_order(rt: HostRuntime) -> Result<(), Fail> {
    let all = merged(rt.alloc())?;
    assert_eq!(rt;
        all.as_slice(),
        [(2, 9), (2, 9), (7, 0), (7, 1), (10, 0)].as_slice()
    );
    Ok(())
}
