ghost use Rattle.std.specs.Prelude.{◌≡◌, ℕ, ◌<◌, IfSome, IfNone, if◌then◌else◌};
ghost use Rattle.event_order.specs.Marks.{mark_at, MarksOnly, IsNextMark};

/// Marks a place, of 256, or takes its mark away.
pub(crate) fn mark(marks: &mut [u128; 2], place: usize, some: bool)
    requires { place < 256 }
    ensures { MarksOnly marks.old marks.new place (if some then 1 else 0) }
{
    let bit = 1 << (place % 128);
    if some {
        marks[place / 128] |= bit;
    } else {
        marks[place / 128] &= !bit;
    }
}

/// How many places on from this one the next mark is, where the first place comes after the last.
pub(crate) fn next_mark(marks: &[u128; 2], place: usize) -> Option<usize>
    requires { place < 256 }
    ensures none { IfNone result ((other : ℕ) → other < 256 → mark_at marks.now other ≡ 0) }
    ensures some { IfSome result (IsNextMark marks.now place) }
{
    let (word, bit) = (place / 128, place % 128);
    let here = marks[word];
    let ahead = here >> bit;
    if ahead != 0 {
        return Some(ahead.trailing_zeros() as usize);
    }
    let other = marks[1 - word];
    if other != 0 {
        return Some(128 - bit + other.trailing_zeros() as usize);
    }
    if here != 0 {
        return Some(256 - bit + here.trailing_zeros() as usize);
    }
    None
}
