use crate::pair::NIL;
use crate::*;
use capital::{AnyRuin, Plain};
use claims::Table;
use std::test::Fail;
use units::{Level, Periods, Weight};

fn answer(bound: u32, periods: u16) -> Result<Answer, RunFault> {
    Ok(Answer {
        pair: Pair {
            lower: bound,
            upper: bound,
        },
        periods: Periods(periods),
        dropped: Dropped(0),
    })
}

fn add_period(
    run: &mut Run,
    board: &mut [Pair],
    spare: &mut [Pair],
    allowance: u32,
) -> Result<(), RunFault> {
    let list = [Weight(1 << 29), Weight(0), Weight(1 << 29)];
    let mut law = Table::calm();
    let _ = law.load(&list);
    let period = Period {
        law: &law,
        rule: &Plain,
        penalty: &AnyRuin,
        allowance: Weight(allowance),
    };
    run.advance(board, spare, &period)
}

#[test]
fn three_periods_of_a_half_at_two(rt: HostRuntime) -> Result<(), Fail> {
    let mut lent = vec![in rt.alloc(); NIL; 4]?;
    let mut other = vec![in rt.alloc(); NIL; 4]?;
    let board = lent.as_mut_slice();
    let spare = other.as_mut_slice();
    let mut run = Run::fresh();
    assert_eq!(rt; run.ask(board, spare, Level(0)), Err(RunFault::Unopened));
    assert_eq!(rt; run.open(1, board, spare), Err(RunFault::LengthRange));
    assert_eq!(rt; run.open(5, board, spare), Err(RunFault::ListShort));
    assert_eq!(rt; run.open(4, board, spare), Ok(()));
    assert_eq!(rt; add_period(&mut run, board, spare, 0), Ok(()));
    assert_eq!(rt; run.ask(board, spare, Level(1)), answer(536_870_912, 1));
    assert_eq!(rt; add_period(&mut run, board, spare, 0), Ok(()));
    assert_eq!(rt; run.ask(board, spare, Level(0)), answer(805_306_368, 2));
    assert_eq!(rt; add_period(&mut run, board, spare, 0), Ok(()));
    assert_eq!(rt; run.ask(board, spare, Level(0)), answer(805_306_368, 3));
    assert_eq!(rt;
        run.ask(board, spare, Level(1)),
        Err(RunFault::LevelUnknown)
    );
    assert_eq!(rt;
        add_period(&mut run, board, spare, (1 << 20) + 1),
        Err(RunFault::AllowanceRange)
    );
    assert_eq!(rt;
        add_period(&mut run, board, spare, 0),
        Err(RunFault::NoneKnown)
    );
    Ok(())
}
