// Every limit: what is taken at it, and refused one past it.
use crate::cases::{LawCase, PenaltyCase, PeriodCase, RuleCase, Shares};
use crate::engine::{Bench, NIL, table};
use crate::verdict::Verdicts;
use capital::{AnyRuin, Barrier, Below, Floor, Plain, Scaled};
use claims::{LawFault, Limit, SingleSize, Table};
use feed::{FeedFault, Reader, Record, read, write};
use roll::Roll;
use run::{Period, RunFault};
use std::alloc::{AllocError, Global};
use std::io;
use units::{Amount, Level, ONE, Weight};

// No claims come, and a barrier keeps every level known.
pub const CALM: PeriodCase = PeriodCase {
    law: LawCase::Listed(Shares(&[8])),
    rule: RuleCase::Barrier(1),
    penalty: PenaltyCase::AnyRuin,
    allowance: 0,
};

// Lists of a length, of ONE at amount 0 and nothing at the others.
fn list_lengths(verdicts: &mut Verdicts<'_>) -> io::Result<()> {
    for (long, expected) in [(0, Err(301)), (1, Ok(())), (4096, Ok(())), (4097, Err(301))] {
        let mut list = vec![in verdicts.heap(); Weight(0); long]?;
        if let Some(first) = list.first_mut() {
            *first = Weight(ONE);
        }
        let trial = format_args!("limit list of weights, length {long}");
        verdicts.compare(trial, table(list.as_slice()), expected)?;
    }
    Ok(())
}

// Loads two weights, of about a half each.
fn load_halves(sum: u32) -> Result<(), LawFault> {
    let first = sum / 2;
    Table::calm().load(&[Weight(first), Weight(sum - first)])
}

fn list_sums(verdicts: &mut Verdicts<'_>) -> io::Result<()> {
    let sums = [(ONE, Ok(())), (ONE + 1, Err(302)), (ONE - 1, Err(303))];
    verdicts.compare_each("limit list of weights, sum", &sums, &load_halves)
}

fn single_sizes(verdicts: &mut Verdicts<'_>) -> io::Result<()> {
    verdicts.compare_each(
        "limit single size",
        &[(0, Err(307)), (1, Ok(())), (4095, Ok(())), (4096, Err(307))],
        &|size| SingleSize::new(Amount(size), Weight(1)),
    )?;
    verdicts.compare_each(
        "limit weight of a single size",
        &[(0, Ok(())), (ONE, Ok(())), (ONE + 1, Err(308))],
        &|weight| SingleSize::new(Amount(1), Weight(weight)),
    )
}

fn retained_limits(verdicts: &mut Verdicts<'_>) -> io::Result<()> {
    verdicts.compare_each(
        "limit of a retained law",
        &[(0, Err(309)), (1, Ok(())), (4095, Ok(())), (4096, Err(309))],
        &|limit| Limit::new(Amount(limit)),
    )
}

fn floors_and_barriers(verdicts: &mut Verdicts<'_>) -> io::Result<()> {
    for (level, floor, barrier) in [
        (0, Err(401), Err(402)),
        (1, Ok(()), Ok(())),
        (8191, Ok(()), Ok(())),
        (8192, Err(401), Err(402)),
    ] {
        verdicts.compare(
            format_args!("limit floor {level}"),
            Floor::new(Level(level)),
            floor,
        )?;
        verdicts.compare(
            format_args!("limit barrier {level}"),
            Barrier::new(Level(level)),
            barrier,
        )?;
    }
    Ok(())
}

fn penalties(verdicts: &mut Verdicts<'_>) -> io::Result<()> {
    verdicts.compare_each(
        "limit y of below-y",
        &[(0, Err(403)), (1, Ok(())), (4096, Ok(())), (4097, Err(403))],
        &Below::new,
    )?;
    verdicts.compare_each(
        "limit m of scaled-m",
        &[(0, Ok(())), (12, Ok(())), (13, Err(404))],
        &Scaled::new,
    )
}

// What an open of a length answers on a board and a spare of some lengths.
fn opened(
    heap: Global,
    long: u16,
    board: u16,
    spare: u16,
) -> Result<Result<(), RunFault>, AllocError> {
    let mut bench = Bench::new(heap, NIL, board, spare)?;
    Ok(bench.open(long))
}

fn row_lengths(verdicts: &mut Verdicts<'_>) -> io::Result<()> {
    for (long, expected) in [(1, Err(501)), (2, Ok(())), (8192, Ok(())), (8193, Err(501))] {
        let answer = opened(verdicts.heap(), long, 8193, 8193)?;
        verdicts.compare(
            format_args!("limit length of the row {long}"),
            answer,
            expected,
        )?;
    }
    Ok(())
}

fn list_ends(verdicts: &mut Verdicts<'_>) -> io::Result<()> {
    let heap = verdicts.heap();
    for (long, shorter) in [(2, 1), (8192, 8191)] {
        let trial = format_args!("limit board and spare as long as a row of {long}");
        verdicts.compare(trial, opened(heap, long, long, long)?, Ok(()))?;
        let trial = format_args!("limit board one shorter than a row of {long}");
        verdicts.compare(trial, opened(heap, long, shorter, long)?, Err(502))?;
        let trial = format_args!("limit spare one shorter than a row of {long}");
        verdicts.compare(trial, opened(heap, long, long, shorter)?, Err(502))?;
    }
    Ok(())
}

// Adds a period of no claims by the library's own values.
fn advance_calmly(bench: &mut Bench, allowance: u32) -> Result<(), RunFault> {
    bench.advance(&Period {
        law: &Table::calm(),
        rule: &Plain,
        penalty: &AnyRuin,
        allowance: Weight(allowance),
    })
}

fn allowances(verdicts: &mut Verdicts<'_>) -> io::Result<()> {
    for (allowance, expected) in [(0, Ok(())), (1 << 20, Ok(())), ((1 << 20) + 1, Err(504))] {
        let mut bench = Bench::new(verdicts.heap(), NIL, 4, 4)?;
        let _ = bench.open(4);
        let answer = advance_calmly(&mut bench, allowance);
        verdicts.compare(
            format_args!("limit allowance {allowance}"),
            answer,
            expected,
        )?;
    }
    Ok(())
}

fn period_counts(verdicts: &mut Verdicts<'_>) -> io::Result<()> {
    let mut bench = Bench::new(verdicts.heap(), NIL, 2, 2)?;
    let _ = bench.open(2);
    let (taken, last) = bench.fill(&CALM)?;
    verdicts.tell("limit 4095 periods are taken", taken == 4095)?;
    let next = taken.saturating_add(1);
    verdicts.compare(format_args!("limit period {next}"), last, Err(507))
}

// One plain period on a row of 4 leaves three levels known.
fn levels(verdicts: &mut Verdicts<'_>) -> io::Result<()> {
    let mut bench = Bench::new(verdicts.heap(), NIL, 4, 4)?;
    let _ = bench.open(4);
    let known = [(3, Ok(())), (4, Err(506))];
    verdicts.compare_each(
        "limit of 4 known levels, level",
        &known,
        &|level| bench.ask(level),
    )?;
    let _ = advance_calmly(&mut bench, 0);
    let known = [(2, Ok(())), (3, Err(506))];
    verdicts.compare_each(
        "limit of 3 known levels, level",
        &known,
        &|level| bench.ask(level),
    )
}

fn rolls(verdicts: &mut Verdicts<'_>) -> io::Result<()> {
    let mut slots = [0u16; 2];
    let mut roll = Roll::new(&mut slots);
    verdicts.compare("limit put into the 1st of 2 slots", roll.put(7), Ok(()))?;
    verdicts.compare("limit place 0 of a roll with 1 item", roll.read(0), Ok(()))?;
    verdicts.compare(
        "limit place 1 of a roll with 1 item",
        roll.read(1),
        Err(102),
    )?;
    verdicts.compare("limit put into the 2nd of 2 slots", roll.put(8), Ok(()))?;
    verdicts.compare("limit put with 2 of 2 slots filled", roll.put(9), Err(101))?;
    verdicts.compare("limit place 1 of a roll with 2 items", roll.read(1), Ok(()))?;
    verdicts.compare(
        "limit place 2 of a roll with 2 items",
        roll.read(2),
        Err(102),
    )
}

fn buffers(verdicts: &mut Verdicts<'_>) -> io::Result<()> {
    for (record, long) in [
        (Record::Advance, 1),
        (Record::Scaled(12), 2),
        (Record::Ask(Level(258)), 3),
        (Record::Allowance(Weight(1)), 5),
        (Record::Claim(Amount(2), Weight(3)), 7),
    ] {
        let mut buffer = vec![in verdicts.heap(); 0u8; long]?;
        let trial = format_args!("limit buffer as long as its record, bytes {long}");
        verdicts.compare(trial, write(record, buffer.as_mut_slice()), Ok(()))?;
        let _ = buffer.pop();
        let trial = format_args!("limit buffer one byte short of its record, bytes {long}");
        verdicts.compare(trial, write(record, buffer.as_mut_slice()), Err(204))?;
    }
    Ok(())
}

// What a reader finds first in a feed.
pub fn first_found(bytes: &[u8]) -> Result<Option<Record>, FeedFault> {
    let found = Reader::new(bytes).next_record().transpose();
    found
        .map(|whole| whole.map(|(record, _)| record))
        .map_err(|(fault, _)| fault)
}

fn feed_lengths(verdicts: &mut Verdicts<'_>) -> io::Result<()> {
    for (long, expected) in [(0, Ok(None)), (65_535, Ok(Some(()))), (65_536, Err(203))] {
        let bytes = vec![in verdicts.heap(); b't'; long]?;
        let trial = format_args!("limit feed, bytes {long}");
        verdicts.compare_found(trial, first_found(bytes.as_slice()), expected)?;
    }
    Ok(())
}

// Records of each length, whole and with their last byte cut off.
fn records(verdicts: &mut Verdicts<'_>) -> io::Result<()> {
    for (kind, long) in [(b'm', 2), (b'u', 3), (b'a', 5), (b'w', 7)] {
        let mut bytes = vec![in verdicts.heap(); kind; long]?;
        let trial = format_args!("limit whole record, bytes {long}");
        verdicts.compare_found(trial, read(bytes.as_slice()), Ok(Some(())))?;
        let _ = bytes.pop();
        let trial = format_args!("limit one byte short of a record, bytes {long}");
        verdicts.compare_found(trial, read(bytes.as_slice()), Err(202))?;
    }
    Ok(())
}

pub fn all(verdicts: &mut Verdicts<'_>) -> io::Result<()> {
    list_lengths(verdicts)?;
    list_sums(verdicts)?;
    single_sizes(verdicts)?;
    retained_limits(verdicts)?;
    floors_and_barriers(verdicts)?;
    penalties(verdicts)?;
    row_lengths(verdicts)?;
    list_ends(verdicts)?;
    allowances(verdicts)?;
    period_counts(verdicts)?;
    levels(verdicts)?;
    rolls(verdicts)?;
    buffers(verdicts)?;
    feed_lengths(verdicts)?;
    records(verdicts)
}
