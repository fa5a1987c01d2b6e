// The worked ranges of the table.

ghost use Rattle.std.specs.Prelude.{◌≡◌};
ghost use Rattle.ranges_interval.specs.Interval.{between};

use ranges_interval::{Interval, ranges_grow};

fn range(lo: i128, hi: i128) -> Interval
    ensures { result ≡ between lo hi }
{
    Interval { lo, hi }
}

// What each operation finds, and what it is to find.
fn rows() -> [(Interval, Interval); 11] {
    [
        (range(0, 9).add(range(1, 1)), range(1, 10)),
        (range(0, 9).sub(range(0, 9)), range(-9, 9)),
        (range(-3, 2).mul(range(-5, 4)), range(-12, 15)),
        (range(-7, 7).div(range(2, 3)), range(-3, 3)),
        (range(1, 10).mod_(range(10, 10)), range(0, 9)),
        (range(-5, 20).mod_(range(3, 4)), range(-3, 3)),
        (range(-32768, 32767).abs(), range(0, 32768)),
        (range(0, 9).min(range(-2, 5)), range(-2, 5)),
        (range(0, 9).max(range(-2, 5)), range(0, 9)),
        (
            Interval::limit(range(0, 0), range(-32768, 32767), range(9, 9)),
            range(0, 9),
        ),
        (range(3, 3).join(range(10, 10)), range(3, 10)),
    ]
}

#[test]
fn worked_ranges(rt: HostRuntime) {
    for (found, wanted) in &rows() {
        assert!(rt; found == wanted);
    }
    assert!(rt; range(3, 4).within(range(3, 4)), "the same range");
    assert!(rt; !range(2, 4).within(range(3, 4)), "begins before");
    assert!(rt; !range(3, 5).within(range(3, 4)), "ends beyond");
    ranges_grow();
}
