use crate::*;
use std::test::Fail;
use units::{Amount, ONE, Weight};

const QUARTER: u32 = ONE / 4;

// The number of a refusal.
fn told<T: Drop>(answer: Result<T, LawFault>) -> Option<u16> {
    answer.err().map(u16::from)
}

fn weight(law: &impl ClaimLaw, amount: u16) -> Option<u32> {
    law.weight(Amount(amount)).map(|weight| weight.0)
}

fn first_weights(law: &impl ClaimLaw) -> [Option<u32>; 5] {
    [0, 1, 2, 3, 4].map(|amount| weight(law, amount))
}

#[test]
fn load_takes_a_whole_list_or_leaves_the_table(rt: HostRuntime) -> Result<(), Fail> {
    let longest = vec![in rt.alloc(); Weight(ONE / 4096); 4096]?;
    let too_long = vec![in rt.alloc(); Weight(ONE); 4097]?;
    let above = [Weight(ONE), Weight(1)];
    let below = [Weight(ONE - 1)];
    let mut table = Table::calm();
    assert_eq!(rt; told(table.load(&[])), Some(301));
    assert_eq!(rt; told(table.load(too_long.as_slice())), Some(301));
    assert_eq!(rt; told(table.load(&above)), Some(302));
    assert_eq!(rt; told(table.load(&below)), Some(303));
    assert_eq!(rt; first_weights(&table), [Some(ONE), None, None, None, None]);
    assert_eq!(rt; told(table.load(longest.as_slice())), None);
    assert_eq!(rt; table.last().0, 4095);
    assert_eq!(rt; weight(&table, 4095), Some(ONE / 4096));
    assert_eq!(rt; weight(&table, 4096), None);
    assert_eq!(rt; told(table.load(&above)), Some(302));
    assert_eq!(rt; table.last().0, 4095);
    Ok(())
}

#[test]
fn single_size_is_1_to_4095_and_at_most_one(rt: HostRuntime) -> Result<(), Fail> {
    let cases = [
        (1, ONE, None),
        (4095, ONE, None),
        (0, ONE, Some(307)),
        (4096, ONE, Some(307)),
        (4096, ONE + 1, Some(307)),
        (1, ONE + 1, Some(308)),
    ];
    for (size, weight, number) in cases {
        assert_eq!(rt; told(SingleSize::new(Amount(size), Weight(weight))), number);
    }
    let law = SingleSize::new(Amount(3), Weight(QUARTER))?;
    assert_eq!(rt; law.last().0, 3);
    assert_eq!(rt;
        first_weights(&law),
        [Some(ONE - QUARTER), Some(0), Some(0), Some(QUARTER), None]
    );
    Ok(())
}

#[test]
fn limit_is_1_to_4095(rt: HostRuntime) -> Result<(), Fail> {
    for (limit, number) in [(1, None), (4095, None), (0, Some(309)), (4096, Some(309))] {
        assert_eq!(rt; told(Limit::new(Amount(limit))), number);
    }
    assert_eq!(rt; Limit::new(Amount(7))?.amount().0, 7);
    Ok(())
}

#[test]
fn retained_law_gathers_what_lies_past_its_limit(rt: HostRuntime) -> Result<(), Fail> {
    let list = [
        Weight(QUARTER),
        Weight(0),
        Weight(QUARTER),
        Weight(2 * QUARTER),
    ];
    let mut table = Table::calm();
    table.load(&list)?;
    let whole = [
        Some(QUARTER),
        Some(0),
        Some(QUARTER),
        Some(2 * QUARTER),
        None,
    ];
    let cases = [
        (1, 1, [Some(QUARTER), Some(3 * QUARTER), None, None, None]),
        (
            2,
            2,
            [Some(QUARTER), Some(0), Some(3 * QUARTER), None, None],
        ),
        (3, 3, whole),
        (4, 3, whole),
        (4095, 3, whole),
    ];
    for (limit, last, weights) in cases {
        let limit = Limit::new(Amount(limit))?;
        let law = Retained::new(table, limit);
        assert_eq!(rt; law.last().0, last);
        assert_eq!(rt; first_weights(&law), weights);
        let nested = Retained::new(law, Limit::new(Amount(1))?);
        assert_eq!(rt;
            first_weights(&nested),
            [Some(QUARTER), Some(3 * QUARTER), None, None, None]
        );
    }
    Ok(())
}
