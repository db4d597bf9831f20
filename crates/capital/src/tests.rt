use crate::*;
use std::test::Fail;
use units::{Deficit, Level, ONE, PositiveSurplus};

// The number of a refusal.
fn told<T: Drop>(answer: Result<T, CapitalFault>) -> Option<u16> {
    answer.err().map(u16::from)
}

// Where a rule carries a surplus, if it can be asked.
fn carried(rule: &impl CapitalRule, surplus: i32) -> Option<u16> {
    let surplus = PositiveSurplus::new(surplus)?;
    Some(rule.carry(surplus).0)
}

// What a penalty prices a deficit at, if it can be asked.
fn priced(penalty: &impl Penalty, deficit: u16) -> Option<u32> {
    let deficit = Deficit::of_surplus(-i32::from(deficit))?;
    Some(penalty.price(deficit).0)
}

#[test]
fn numbers_are_taken_within_their_limits(rt: HostRuntime) {
    for (level, taken) in [(1, true), (8191, true), (0, false), (8192, false)] {
        let refused = |number| if taken { None } else { Some(number) };
        assert_eq!(rt; told(Floor::new(Level(level))), refused(401));
        assert_eq!(rt; told(Barrier::new(Level(level))), refused(402));
    }
    for (y, number) in [(1, None), (4096, None), (0, Some(403)), (4097, Some(403))] {
        assert_eq!(rt; told(Below::new(y)), number);
    }
    for (m, number) in [(0, None), (12, None), (13, Some(404))] {
        assert_eq!(rt; told(Scaled::new(m)), number);
    }
}

#[test]
fn rules_carry(rt: HostRuntime) -> Result<(), Fail> {
    let floor = Floor::new(Level(3))?;
    let barrier = Barrier::new(Level(3))?;
    for (surplus, plain, lifted, paid_out) in [
        (1, 1, 3, 1),
        (3, 3, 3, 3),
        (4, 4, 4, 3),
        (8192, 8192, 8192, 3),
    ] {
        assert_eq!(rt; carried(&Plain, surplus), Some(plain));
        assert_eq!(rt; carried(&floor, surplus), Some(lifted));
        assert_eq!(rt; carried(&barrier, surplus), Some(paid_out));
    }
    Ok(())
}

#[test]
fn penalties_price(rt: HostRuntime) -> Result<(), Fail> {
    let below = Below::new(4)?;
    let scaled = Scaled::new(3)?;
    for (deficit, under_4, by_eighths) in [
        (0, ONE, 0),
        (3, ONE, 3),
        (4, 0, 4),
        (8, 0, 8),
        (4095, 0, 8),
    ] {
        assert_eq!(rt; priced(&AnyRuin, deficit), Some(ONE));
        assert_eq!(rt; priced(&below, deficit), Some(under_4));
        assert_eq!(rt; priced(&scaled, deficit), Some(by_eighths * (ONE / 8)));
    }
    assert_eq!(rt; priced(&Below::new(4096)?, 4095), Some(ONE));
    assert_eq!(rt; priced(&Scaled::new(0)?, 1), Some(ONE));
    assert_eq!(rt; priced(&Scaled::new(12)?, 4095), Some(ONE - (1 << 18)));
    Ok(())
}
