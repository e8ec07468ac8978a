ghost use Rattle.std.specs.Prelude.{◌≡◌, ◌<◌};

use crate::{Line, Ramp, Steps};
use std::marker::Brand;
use std::sync::ledger::{Blank, Ledger};

// From a line of halves that falls through 0: the ramp that follows it, the same ramp later, its value below 0, and the
// count.
fn makes<L: Ledger>(blank: Blank) -> (Line, Line, i128, u64)
    requires name { blank.name ≡ L.name }
    requires parts { blank.parts ≡ L.parts }
    requires some { 0 < blank.parts }
{
    let (book, share) = blank.open::<L>();
    let mut steps = Steps::of(book, share);
    let line = Line {
        start: 10,
        num: 3,
        rate: -1,
        den: 2,
    };
    let falling = Ramp::first(line, &mut steps);
    let next = falling.next(14, 5, &mut steps);
    let later = falling.rebase(12);
    (
        next.line(),
        later.line(),
        falling.floor_at(14),
        steps.made(),
    )
}

#[test]
fn ramps(rt: HostRuntime) {
    let (next, later, floor, count) = makes::<Brand>(Blank::new(1));
    assert_eq!(rt; (next.start, next.num, next.rate, next.den), (14, -1, 5, 2));
    assert_eq!(rt;
        (later.start, later.num, later.rate, later.den),
        (12, 1, -1, 2)
    );
    assert_eq!(rt; (floor, count), (-1, 2));
}

#[test]
fn floors(rt: HostRuntime) {
    assert_eq!(rt; Ramp::still(0, 7, 2).floor_at(9), 3);
    assert_eq!(rt; Ramp::still(0, -7, 4).floor_at(9), -2);
    assert_eq!(rt; Ramp::still(0, -2, 2).at(9), -2);
}
