// Refusals: every number that no limit tries, which check speaks where two fail at once, and that nothing is altered.
use crate::cases::{LawCase, PenaltyCase, PeriodCase, RuleCase, Shares};
use crate::engine::{Bench, Lent, NIL};
use crate::limits::{CALM, first_found};
use crate::verdict::Verdicts;
use claims::{ClaimLaw, SingleSize, Table};
use feed::{Record, read, write};
use roll::Roll;
use run::Pair;
use std::alloc::{AllocError, Global};
use std::io;
use units::{Amount, Level, ONE, Periods, Weight};

const MARK: Pair = Pair { lower: 7, upper: 9 };

const PLAIN: PeriodCase = PeriodCase {
    law: LawCase::Listed(Shares(&[4, 0, 4])),
    rule: RuleCase::Plain,
    penalty: PenaltyCase::AnyRuin,
    allowance: 0,
};

const ALLOWED_TOO_MUCH: PeriodCase = PeriodCase {
    allowance: (1 << 20) + 1,
    ..PLAIN
};

// A floor as high as the row leaves no level known.
const NONE_KNOWN: PeriodCase = PeriodCase {
    rule: RuleCase::Floor(4),
    ..PLAIN
};

const NEITHER: PeriodCase = PeriodCase {
    allowance: (1 << 20) + 1,
    ..NONE_KNOWN
};

const HALF: u32 = ONE / 2;

const TWO_HALVES: &[Weight] = &[Weight(HALF), Weight(HALF)];

const NO_WEIGHTS: &[Weight] = &[];

const LIST_ABOVE_ONE: &[Weight] = &[Weight(ONE), Weight(1)];

const LIST_BELOW_ONE: &[Weight] = &[Weight(ONE - 1)];

fn loads(verdicts: &mut Verdicts<'_>) -> io::Result<()> {
    let heavy = vec![in verdicts.heap(); Weight(ONE); 4097]?;
    let light = vec![in verdicts.heap(); Weight(0); 4097]?;
    let mut table = Table::calm();
    verdicts.compare("first load, of two halves", table.load(TWO_HALVES), Ok(()))?;
    for (trial, list, number) in [
        ("order load, too long and above ONE", heavy.as_slice(), 301),
        ("order load, too long and below ONE", light.as_slice(), 301),
        ("order load, empty and below ONE", NO_WEIGHTS, 301),
        ("refusal load above ONE", LIST_ABOVE_ONE, 302),
        ("refusal load below ONE", LIST_BELOW_ONE, 303),
    ] {
        verdicts.compare(trial, table.load(list), Err(number))?;
    }
    let stays = table.last() == Amount(1) && table.weight(Amount(0)) == Some(Weight(HALF));
    verdicts.tell("unaltered table after refused loads", stays)
}

fn single_sizes(verdicts: &mut Verdicts<'_>) -> io::Result<()> {
    verdicts.compare_each(
        "order single weight above ONE and size",
        &[(0, Err(307)), (4096, Err(307))],
        &|size| SingleSize::new(Amount(size), Weight(ONE + 1)),
    )
}

fn rolls(verdicts: &mut Verdicts<'_>) -> io::Result<()> {
    let mut slots = [5u16, 6];
    let mut roll = Roll::new(&mut slots);
    verdicts.compare("refusal read of an empty roll", roll.read(0), Err(102))?;
    let _ = roll.put(7);
    let _ = roll.put(8);
    verdicts.compare("refusal put into a full roll", roll.put(9), Err(101))?;
    let stays = roll.items() == [7, 8].as_slice();
    verdicts.tell("unaltered roll after a refused put", stays)?;
    roll.empty();
    verdicts.compare("refusal read of a roll emptied", roll.read(0), Err(102))
}

fn feeds(verdicts: &mut Verdicts<'_>) -> io::Result<()> {
    for (trial, bytes, number) in [
        ("refusal unknown kind", b"x\x00\x00".as_slice(), 201),
        ("refusal kind in the other case", b"T".as_slice(), 201),
        ("refusal body cut short", b"u\x00".as_slice(), 202),
        ("order unknown kind and no body", b"x".as_slice(), 201),
    ] {
        verdicts.compare_found(trial, read(bytes), Err(number))?;
    }
    let long = vec![in verdicts.heap(); b'x'; 65_536]?;
    let trial = "order feed too long and unknown kind";
    verdicts.compare_found(trial, first_found(long.as_slice()), Err(203))?;
    let mut buffer = [1u8, 2];
    let trial = "refusal record of 3 bytes into a buffer of 2";
    verdicts.compare(trial, write(Record::Ask(Level(258)), &mut buffer), Err(204))?;
    verdicts.tell("unaltered buffer after a refused write", buffer == [1, 2])
}

// A run with one period on a row of 4, on longer lists.
fn worked(heap: Global) -> Result<Bench, AllocError> {
    let mut bench = Bench::new(heap, MARK, 5, 5)?;
    let _ = bench.work(4, &[PLAIN])?;
    Ok(bench)
}

fn opens(verdicts: &mut Verdicts<'_>) -> io::Result<()> {
    let mut bench = worked(verdicts.heap())?;
    let before = bench.seen()?;
    for (trial, long, board, spare, number) in [
        ("order open of 1 on empty lists", 1, 0, 0, 501),
        ("order open of 8193 on short lists", 8193, 5, 5, 501),
        ("refusal open of 5 on a short board", 5, 4, 5, 502),
        ("refusal open of 5 on a short spare", 5, 5, 4, 502),
    ] {
        verdicts.compare(
            trial,
            bench.open_on(Lent { board, spare }, long),
            Err(number),
        )?;
    }
    let stays = before.told.is_ok() && bench.seen()? == before;
    verdicts.tell("unaltered board and run after refused opens", stays)
}

const ADVANCES: [(&str, usize, usize, PeriodCase, u16); 6] = [
    ("refusal advance on a short board", 3, 4, PLAIN, 502),
    ("refusal advance on a short spare", 4, 3, PLAIN, 502),
    ("refusal advance, no level known", 4, 4, NONE_KNOWN, 505),
    (
        "order advance, short board and allowance",
        3,
        4,
        ALLOWED_TOO_MUCH,
        502,
    ),
    (
        "order advance, short spare and no level known",
        4,
        3,
        NONE_KNOWN,
        502,
    ),
    (
        "order advance, allowance and no level known",
        4,
        4,
        NEITHER,
        504,
    ),
];

fn advances(verdicts: &mut Verdicts<'_>) -> io::Result<()> {
    let mut bench = worked(verdicts.heap())?;
    let before = bench.seen()?;
    for (trial, board, spare, period, number) in ADVANCES {
        verdicts.compare(
            trial,
            bench.add_on(Lent { board, spare }, &period)?,
            Err(number),
        )?;
    }
    let stays = before.told.is_ok() && bench.seen()? == before;
    verdicts.tell(
        "unaltered board, spare and run after refused advances",
        stays,
    )
}

fn unopened(verdicts: &mut Verdicts<'_>) -> io::Result<()> {
    let mut bench = Bench::new(verdicts.heap(), MARK, 4, 4)?;
    let before = bench.seen()?;
    for (trial, lent, period) in [
        ("refusal advance, unopened", 4, PLAIN),
        ("order advance, unopened and empty lists", 0, PLAIN),
        ("order advance, unopened and allowance", 4, ALLOWED_TOO_MUCH),
        ("order advance, unopened and no level known", 4, NONE_KNOWN),
    ] {
        let lent = Lent {
            board: lent,
            spare: lent,
        };
        verdicts.compare(trial, bench.add_on(lent, &period)?, Err(503))?;
    }
    let trial = "order ask, unopened and level unknown";
    verdicts.compare(trial, bench.ask(0), Err(503))?;
    let trial = "order ask, unopened and empty lists";
    let none = Lent { board: 0, spare: 0 };
    verdicts.compare(trial, bench.ask_on(none, 0), Err(503))?;
    let stays = bench.seen()? == before;
    verdicts.tell(
        "unaltered board and spare after refusals of an unopened run",
        stays,
    )
}

// A run with all the periods that it can have.
fn full(verdicts: &mut Verdicts<'_>) -> io::Result<()> {
    let mut bench = Bench::new(verdicts.heap(), NIL, 4, 4)?;
    let _ = bench.open(4);
    let _ = bench.fill(&CALM)?;
    for (trial, board, period, number) in [
        ("order advance, short board and periods full", 3, PLAIN, 502),
        (
            "order advance, periods full and allowance",
            4,
            ALLOWED_TOO_MUCH,
            507,
        ),
        (
            "order advance, periods full and no level known",
            4,
            NONE_KNOWN,
            507,
        ),
    ] {
        verdicts.compare(
            trial,
            bench.add_on(Lent { board, spare: 4 }, &period)?,
            Err(number),
        )?;
    }
    let stays = bench
        .ask(0)
        .is_ok_and(|answer| answer.periods == Periods(4095));
    verdicts.tell(
        "unaltered count of 4095 periods after refused advances",
        stays,
    )
}

fn asks(verdicts: &mut Verdicts<'_>) -> io::Result<()> {
    let mut bench = Bench::new(verdicts.heap(), MARK, 4, 4)?;
    let _ = bench.open(4);
    for (trial, board, spare, level, number) in [
        ("refusal ask on a short board", 3, 4, 0, 502),
        ("refusal ask on a short spare", 4, 3, 0, 502),
        ("order ask, short board and level unknown", 3, 4, 4, 502),
        ("refusal ask, level unknown", 4, 4, 4, 506),
    ] {
        verdicts.compare(
            trial,
            bench.ask_on(Lent { board, spare }, level),
            Err(number),
        )?;
    }
    Ok(())
}

pub fn all(verdicts: &mut Verdicts<'_>) -> io::Result<()> {
    rolls(verdicts)?;
    feeds(verdicts)?;
    loads(verdicts)?;
    single_sizes(verdicts)?;
    opens(verdicts)?;
    unopened(verdicts)?;
    advances(verdicts)?;
    full(verdicts)?;
    asks(verdicts)
}
