// Small runs of the engine, each known level beside its exact sum.
use crate::cases::{LawCase, PenaltyCase, PeriodCase, RuleCase, Shares};
use crate::engine::{Bench, NIL};
use crate::exact::{exact_sum, stays};
use crate::verdict::Verdicts;
use run::{Answer, Dropped, Pair};
use std::alloc::{AllocError, Global};
use std::{fmt, io};
use units::Periods;

const AT_MOST_ONE: LawCase = LawCase::Listed(Shares(&[5, 3]));

const HALF_AT_TWO: LawCase = LawCase::Listed(Shares(&[4, 0, 4]));

const FALLING: LawCase = LawCase::Listed(Shares(&[5, 2, 1]));

const WITH_GAP: LawCase = LawCase::Listed(Shares(&[4, 0, 3, 1]));

const WITH_LAST_ZEROS: LawCase = LawCase::Listed(Shares(&[1, 7, 0, 0]));

// With odd weights for an amount that keeps the level and for one that ruins it, bounds come to be rounded.
const ODD: Shares = Shares(&[3, 3, 1, 1]);

const SPREAD: Shares = Shares(&[2, 3, 1, 2]);

const SINGLE: LawCase = LawCase::Single {
    size: 3,
    eighths: 2,
};

const SINGLE_OF_ONE: LawCase = LawCase::Single {
    size: 1,
    eighths: 5,
};

const RETAINED_AT_ONE: LawCase = LawCase::Retained {
    below: ODD,
    limit: 1,
};

const RETAINED_AT_TWO: LawCase = LawCase::Retained {
    below: SPREAD,
    limit: 2,
};

// Each law with the most periods for which its sequences are few.
const LAWS: [(LawCase, u16); 9] = [
    (AT_MOST_ONE, 11),
    (HALF_AT_TWO, 9),
    (FALLING, 7),
    (WITH_GAP, 5),
    (LawCase::Listed(ODD), 8),
    (WITH_LAST_ZEROS, 5),
    (SINGLE, 5),
    (RETAINED_AT_ONE, 11),
    (RETAINED_AT_TWO, 11),
];

const RULES: [RuleCase; 3] = [RuleCase::Plain, RuleCase::Floor(3), RuleCase::Barrier(2)];

// Scaled-12 has the finest prices: with them bounds are rounded from seven periods on, with the others later.
const PENALTIES: [PenaltyCase; 4] = [
    PenaltyCase::AnyRuin,
    PenaltyCase::Below(1),
    PenaltyCase::Scaled(1),
    PenaltyCase::Scaled(12),
];

// Laws of a long run: two amounts in every other period keep its sequences few.
const WIDE_LAWS: [LawCase; 3] = [LawCase::Listed(ODD), FALLING, RETAINED_AT_TWO];

const NARROW_LAWS: [LawCase; 3] = [AT_MOST_ONE, SINGLE_OF_ONE, RETAINED_AT_ONE];

const MIXED_RULES: [RuleCase; 5] = [
    RuleCase::Plain,
    RuleCase::Floor(2),
    RuleCase::Barrier(3),
    RuleCase::Floor(3),
    RuleCase::Barrier(1),
];

const MIXED_PENALTIES: [PenaltyCase; 6] = [
    PenaltyCase::AnyRuin,
    PenaltyCase::Scaled(2),
    PenaltyCase::Below(2),
    PenaltyCase::Scaled(12),
    PenaltyCase::Below(1),
    PenaltyCase::Scaled(0),
];

// The known levels of a run that were right, and those of them whose bounds differ.
#[derive(Clone, Copy, Default)]
struct Known {
    levels: u32,
    rounded: u32,
}

impl Known {
    fn add(&mut self, width: u32) {
        self.levels = self.levels.saturating_add(1);
        self.rounded = self.rounded.saturating_add(u32::from(width > 0));
    }
}

// The runs of a group, how many of them went wrong, and the known levels of the others.
#[derive(Clone, Copy, Default)]
struct Tally {
    runs: u32,
    wrong: u32,
    levels: u32,
    rounded: u32,
}

impl Tally {
    // Counts a run and its known levels; none if one of them was wrong.
    fn count(&mut self, known: Option<Known>) {
        self.runs = self.runs.saturating_add(1);
        match known {
            Some(known) => {
                self.levels = self.levels.saturating_add(known.levels);
                self.rounded = self.rounded.saturating_add(known.rounded);
            }
            None => self.wrong = self.wrong.saturating_add(1),
        }
    }
}

impl fmt::Display for Tally {
    fn fmt<W: fmt::Write>(&self, f: &mut fmt::Formatter<W>) -> fmt::Result {
        let Tally {
            runs,
            levels,
            rounded,
            ..
        } = self;
        write!(f, "{runs} runs, {levels} levels, {rounded} rounded")
    }
}

// Whether the pair encloses the exact value: the scale is eight to the power of the periods.
fn encloses(pair: Pair, periods: &[PeriodCase], level: u16, scale: u64) -> Option<bool> {
    let lower = u64::from(pair.lower).checked_mul(scale)?;
    let upper = u64::from(pair.upper).checked_mul(scale)?;
    Some((lower..=upper).contains(&exact_sum(periods, level)?))
}

// The width of a right answer: no allowance cuts an eighth, so nothing is dropped, and it is at most the periods.
fn width_if_right(answer: Answer, periods: &[PeriodCase], level: u16) -> Option<u32> {
    let count = u16::try_from(periods.len()).ok()?;
    let scale = 8u64.checked_pow(u32::from(count))?;
    let width = answer.pair.upper.checked_sub(answer.pair.lower)?;
    let narrow = width <= u32::from(count);
    let counted = answer.periods == Periods(count) && answer.dropped == Dropped(0);
    (narrow && counted && encloses(answer.pair, periods, level, scale)?).then_some(width)
}

// The known levels; none if one is wrong, or if a level that is not known is not refused.
fn known_levels(bench: &Bench, periods: &[PeriodCase], long: u16) -> Option<Known> {
    let mut known = Known::default();
    for level in 0..=long {
        match (stays(periods, level, long), bench.ask(level)) {
            (true, Ok(answer)) => known.add(width_if_right(answer, periods, level)?),
            (false, Err(fault)) if u16::from(fault) == 506 => {}
            _ => return None,
        }
    }
    Some(known)
}

// Works a run and tries its every level.
fn try_run(heap: Global, periods: &[PeriodCase], long: u16) -> Result<Option<Known>, AllocError> {
    let mut bench = Bench::new(heap, NIL, long, long)?;
    match bench.work(long, periods)? {
        Ok(()) => Ok(known_levels(&bench, periods, long)),
        Err(_) => Ok(None),
    }
}

// Rows of three sizes over the periods, so that some levels are known and some are not.
fn row_for(count: u16) -> u16 {
    count.saturating_add(3 + count % 3)
}

// None at all, or the largest.
fn allowance_for(number: u16) -> u32 {
    if number % 2 == 0 { 0 } else { 1 << 20 }
}

// Runs of the same period over and over.
fn try_alike(heap: Global, period: PeriodCase, most: u16) -> Result<Tally, AllocError> {
    let mut tally = Tally::default();
    for count in 1..=most {
        let allowance = allowance_for(count);
        let period = PeriodCase {
            allowance,
            ..period
        };
        let periods = vec![in heap; period; usize::from(count)]?;
        tally.count(try_run(heap, periods.as_slice(), row_for(count))?);
    }
    Ok(tally)
}

fn tell_alike(verdicts: &mut Verdicts<'_>, period: PeriodCase, most: u16) -> io::Result<()> {
    let tally = try_alike(verdicts.heap(), period, most)?;
    let trial = format_args!("runs of {period}, 1 to {most} periods: {tally}");
    verdicts.tell(trial, tally.wrong == 0)
}

fn tell_rule(
    verdicts: &mut Verdicts<'_>,
    law: LawCase,
    rule: RuleCase,
    most: u16,
) -> io::Result<()> {
    for penalty in PENALTIES {
        let period = PeriodCase {
            law,
            rule,
            penalty,
            allowance: 0,
        };
        tell_alike(verdicts, period, most)?;
    }
    Ok(())
}

fn tell_law(verdicts: &mut Verdicts<'_>, law: LawCase, most: u16) -> io::Result<()> {
    for rule in RULES {
        tell_rule(verdicts, law, rule, most)?;
    }
    Ok(())
}

fn mixed_law(number: u16, place: u16, count: u16) -> LawCase {
    let number = usize::from(number);
    if count <= 5 {
        LAWS[number % LAWS.len()].0
    } else if place % 2 == 0 {
        WIDE_LAWS[number % WIDE_LAWS.len()]
    } else {
        NARROW_LAWS[number % NARROW_LAWS.len()]
    }
}

// The period at a place of a run, so chosen that neighbours differ in law, rule and penalty.
fn mixed(seed: u16, place: u16, count: u16) -> PeriodCase {
    let number = seed.wrapping_mul(5).wrapping_add(place.wrapping_mul(7));
    PeriodCase {
        law: mixed_law(number, place, count),
        rule: MIXED_RULES[usize::from(number / 2) % MIXED_RULES.len()],
        penalty: MIXED_PENALTIES[usize::from(number / 3) % MIXED_PENALTIES.len()],
        allowance: allowance_for(seed),
    }
}

// Runs whose periods change from one to the next.
fn try_mixed(heap: Global, count: u16) -> Result<Tally, AllocError> {
    let mut tally = Tally::default();
    for seed in 0..8 {
        let periods: Vec<PeriodCase> = (0..count)
            .map(|place| mixed(seed, place, count))
            .collect(heap)?;
        tally.count(try_run(heap, periods.as_slice(), row_for(count))?);
    }
    Ok(tally)
}

fn tell_mixed(verdicts: &mut Verdicts<'_>, count: u16) -> io::Result<()> {
    let tally = try_mixed(verdicts.heap(), count)?;
    let trial = format_args!("runs of mixed periods, {count} in a run: {tally}");
    verdicts.tell(trial, tally.wrong == 0)
}

pub fn all(verdicts: &mut Verdicts<'_>) -> io::Result<()> {
    for (law, most) in LAWS {
        tell_law(verdicts, law, most)?;
    }
    for count in 1..=11 {
        tell_mixed(verdicts, count)?;
    }
    Ok(())
}
