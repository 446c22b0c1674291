// A worked order from a host, shown from the promises of host and planner alone.
use cases::limits_m;
use host::orders::{Order, Point};
use planner::NUMBERS;

// A rapid to 0.0625 mm along X: one block is held, and the host's point is 62 µm, the even one of the two that are as near.
pub(crate) fn one_rapid() {
    let mut memory = [0u64; NUMBERS];
    let mut host = [7u64; host::NUMBERS];
    let _ = planner::fresh(&mut memory, limits_m(), b"");
    host::fresh(&mut host);
    let none = Point {
        x: 0.0,
        y: 0.0,
        z: 0.0,
    };
    let target = Point { x: 0.0625, ..none };
    let _ = host::order(&mut memory, &mut host, Order::Rapid(target), none);
    check::expect(planner::told(&memory) == 1);
    let p = host::position(&host);
    check::expect(p.x == 62.0);
}
