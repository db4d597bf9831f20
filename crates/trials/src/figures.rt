// Figures worked by hand, out of the compiled engine.
use crate::engine::NIL;
use crate::verdict::Verdicts;
use capital::{Plain, Scaled};
use claims::SingleSize;
use run::{Pair, Period, one_period};
use session::Cause;
use std::io;
use units::{Amount, Level, Weight};

// The pair of level 0 after one period of size 5 at a half, priced by eighths.
fn size_five_by_eighths() -> Result<Pair, Cause> {
    let law = SingleSize::new(Amount(5), Weight(1 << 29))?;
    let penalty = Scaled::new(3)?;
    let mut board = [NIL; 4];
    let mut spare = [NIL; 4];
    let period = Period {
        law: &law,
        rule: &Plain,
        penalty: &penalty,
        allowance: Weight(0),
    };
    let answer = one_period(4, &mut board, &mut spare, &period, Level(0))?;
    Ok(answer.pair)
}

pub fn all(verdicts: &mut Verdicts<'_>) -> io::Result<()> {
    let quarter = Pair {
        lower: 268_435_456,
        upper: 268_435_456,
    };
    verdicts.tell(
        "figure size 5 at a half, scaled-3, one period, level 0: 268435456 268435456",
        size_five_by_eighths().is_ok_and(|pair| pair == quarter),
    )
}
