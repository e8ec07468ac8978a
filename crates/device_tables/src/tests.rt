use crate::{Channel, Grid, Table, TableRefusal, resistor};
use std::test::Fail;

#[test]
fn uniform_cells(rt: HostRuntime) {
    let grid = Grid::uniform(100_000, 4096);
    for (microvolts, cell) in [
        (50_000, 4097),
        (49_999, 4096),
        (-50_000, 4096),
        (-50_001, 4095),
    ] {
        assert_eq!(rt; grid.cell(microvolts, 1), cell, "at {microvolts} µV");
    }
    assert_eq!(rt; resistor(100_000, 1_000_000, 4106), 1_000_000_000);
}

#[test]
fn refusals(rt: HostRuntime) -> Result<(), Fail> {
    let grid = Grid::of_list([5, 5].to_vec(rt.alloc())?);
    assert_eq!(rt; grid.err(), Some(TableRefusal::NotRising(1)));
    Ok(())
}

/// A switch: 1 mA where the gate is at least 0.5 V above the source and the drain not below it, and off elsewhere.
#[test]
fn switch(rt: HostRuntime) -> Result<(), Fail> {
    let gate = Grid::of_list([500_000].to_vec(rt.alloc())?)?;
    let drain = Grid::of_list([0].to_vec(rt.alloc())?)?;
    let table = Table::explicit(gate, drain, [0, 0, 0, 1_000_000_000].to_vec(rt.alloc())?)?;
    assert_eq!(rt; table.gate().cell(500_000, 1), 1);
    assert_eq!(rt; table.drain().cell(-1, 1_000_000), 0);
    assert_eq!(rt; table.current(1, 1), 1_000_000_000);
    assert!(rt; table.gate().above(1).is_none() && table.drain().below(1) == Some(0));
    Ok(())
}

/// A level 1 model of 120 µA/V² and a threshold of 0.45 V, ten times as wide as long, at 50 mV: off, linear, at its end,
/// saturated, with drain and source exchanged, and without a voltage between them.
#[test]
#[tactic(auto, using(crate::proofs::Levels::gate_length, crate::proofs::Levels::drain_length))]
fn level_one(rt: HostRuntime) {
    let table = Table::level_one(Channel::N, 450_000, 120_000_000, 1_800_000, 180_000, 50_000);
    assert_eq!(rt; table.current(137, 148), 0);
    assert_eq!(rt; table.current(148, 133), 127_500_000);
    assert_eq!(rt; table.current(148, 139), 181_500_000);
    assert_eq!(rt; table.current(148, 140), 181_500_000);
    assert_eq!(rt; table.current(148, 123), -202_500_000);
    assert_eq!(rt; table.current(148, 128), 0);
}

/// One whose currents are no whole numbers: they are rounded towards zero, also below it.
#[test]
#[tactic(auto, using(crate::proofs::Levels::gate_length, crate::proofs::Levels::drain_length))]
fn rounded(rt: HostRuntime) {
    let table = Table::level_one(Channel::N, 450_000, 200_000_000, 1_000_000, 180_000, 50_000);
    assert_eq!(rt; table.current(164, 164), 1_012_500_000);
    assert_eq!(rt; table.current(164, 130), 144_444_444);
    assert_eq!(rt; table.current(164, 126), -155_555_555);
}

/// A p-channel model turns every voltage and the current, and a current is cut to 1 A.
#[test]
#[tactic(auto, using(crate::proofs::Levels::gate_length, crate::proofs::Levels::drain_length))]
fn turned_and_cut(rt: HostRuntime) {
    let turned = Table::level_one(
        Channel::P,
        -450_000,
        120_000_000,
        1_800_000,
        180_000,
        50_000,
    );
    assert_eq!(rt; turned.current(108, 123), -127_500_000);
    let wide = Table::level_one(Channel::N, 0, 100_000_000_000, 1_000_000_000, 1, 1_000_000);
    assert_eq!(rt; wide.current(256, 256), 1_000_000_000_000);
}
