//! Registers of worked intervals.

ghost use Rattle.std.specs.Prelude.{◌≡◌};

use reg_assign::{AssignFault, Interval, RegClass, assign, need};
use std::test::Fail;

fn interval(from: u32, last_use: u32) -> Interval
    ensures from { result.from ≡ from }
    ensures last_use { result.last_use ≡ last_use }
{
    Interval { from, last_use }
}

#[test]
fn registers(rt: HostRuntime) -> Result<(), Fail> {
    let worked = [
        interval(0, 4),
        interval(1, 3),
        interval(3, 6),
        interval(3, 3),
        interval(7, 9),
    ];
    let assigned = assign(rt.alloc(), &worked, RegClass::X, 2)?;
    let registers = [
        assigned.register(0),
        assigned.register(1),
        assigned.register(2),
        assigned.register(3),
        assigned.register(4),
    ];
    assert!(rt; registers == [0, 1, 1, 0, 0]);
    Ok(())
}

#[test]
fn too_many(rt: HostRuntime) -> Result<(), Fail> {
    let three = [interval(5, 8), interval(5, 6), interval(5, 6)];
    let fault = AssignFault::TooMany {
        class: RegClass::P,
        need: 3,
    };
    let refused = assign(rt.alloc(), &three, RegClass::P, 2).err();
    assert!(rt; need(&three) == 3 && refused == Some(fault));
    let text = format!(in rt.alloc(); "{fault}")?;
    assert!(rt; text.as_str() == "too many live p 3");
    Ok(())
}
