// Times the largest advance: 4,096 weights, a board of 8,192, plain. Its argument is how many to time.
#![tactic(auto)]

use anyhow::{Context, Result};
use capital::{AnyRuin, Plain};
use claims::Table;
use run::{NIL, Pair, Period, Run};
use std::env;
use std::time::Instant;
use units::Weight;

const LONG: u16 = 8192;

const AMOUNTS: usize = 4096;

// The nanoseconds that one largest advance takes, from a fresh open.
fn time_one(
    rt: &HostRuntime,
    board: &mut [Pair],
    spare: &mut [Pair],
    law: &Table<'_>,
) -> Result<u128> {
    let mut run = Run::fresh();
    run.open(LONG, board, spare)
        .ok()
        .context("the run was not opened")?;
    let period = Period {
        law,
        rule: &Plain,
        penalty: &AnyRuin,
        allowance: Weight(0),
    };
    let start = Instant::now(rt)?;
    let added = run.advance(board, spare, &period);
    let taken = start.elapsed(rt)?.as_nanos();
    added.ok().context("the advance was refused")?;
    Ok(taken)
}

fn time_all(rt: &HostRuntime, rounds: u64) -> Result<()> {
    let mut board = vec![in rt.alloc(); NIL; LONG as usize]?;
    let mut spare = vec![in rt.alloc(); NIL; LONG as usize]?;
    let list = vec![in rt.alloc(); Weight(1 << 18); AMOUNTS]?;
    let mut law = Table::calm();
    law.load(list.as_slice())
        .ok()
        .context("the law was not loaded")?;
    let mut best = u128::MAX;
    for _ in 0..rounds {
        best = best.min(time_one(rt, board.as_mut_slice(), spare.as_mut_slice(), &law)?);
    }
    let terms = (LONG as u128 - 1) * AMOUNTS as u128;
    let whole = best / terms;
    let thousandths = best % terms * 1000 / terms;
    println!(rt; "rattle {best} ns for {terms} terms: {whole}.{thousandths:03} ns a term")?;
    Ok(())
}

fn main(rt: HostRuntime) -> Result<()> {
    let Some(rounds) = env::args(&rt)?.nth(1) else {
        println!(rt; "give the number of advances to time")?;
        return Ok(());
    };
    time_all(&rt, rounds.as_str().parse::<u64>()?)
}
