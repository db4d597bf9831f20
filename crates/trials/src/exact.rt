// The exact value as a sum over all claim sequences, by arithmetic of its own: no law, rule, penalty or surplus of the
// library is asked. A sum that does not fit 64 bits is none.
use crate::cases::{LawCase, PenaltyCase, PeriodCase, RuleCase, Shares};

const CERTAIN: u64 = 1_073_741_824;

// A sequence on its way: at a level, or ruined at a price. Not a Result: the price of a ruin is what the sum is of.
#[derive(Clone, Copy)]
enum Walk {
    At(i32),
    Ruined(u64),
}

impl Shares {
    fn amounts(self) -> u64 {
        self.0.len() as u64
    }

    fn weight_of(self, amount: u64) -> u64 {
        self.0
            .get(amount as usize)
            .map_or(0, |eighths| u64::from(*eighths))
    }

    // What all amounts of the list from `first` on weigh together.
    fn weight_from(self, first: u64) -> Option<u64> {
        self.0
            .iter()
            .skip(first as usize)
            .try_fold(0u64, |sum, eighths| sum.checked_add(u64::from(*eighths)))
    }
}

impl LawCase {
    fn amounts(self) -> u64 {
        match self {
            LawCase::Listed(shares) => shares.amounts(),
            LawCase::Single { size, .. } => u64::from(size) + 1,
            LawCase::Retained { below, limit } => below.amounts().min(u64::from(limit) + 1),
        }
    }

    // The weight of an amount, in eighths of ONE.
    fn share(self, amount: u64) -> Option<u64> {
        match self {
            LawCase::Listed(shares) => Some(shares.weight_of(amount)),
            LawCase::Single { size, eighths } => {
                if amount == u64::from(size) {
                    Some(u64::from(eighths))
                } else if amount == 0 {
                    8u64.checked_sub(u64::from(eighths))
                } else {
                    Some(0)
                }
            }
            LawCase::Retained { below, limit } => {
                if amount < u64::from(limit) {
                    Some(below.weight_of(amount))
                } else {
                    below.weight_from(amount)
                }
            }
        }
    }
}

impl RuleCase {
    fn carried(self, surplus: i32) -> i32 {
        match self {
            RuleCase::Plain => surplus,
            RuleCase::Floor(level) => surplus.max(i32::from(level)),
            RuleCase::Barrier(level) => surplus.min(i32::from(level)),
        }
    }
}

impl PenaltyCase {
    fn price(self, deficit: u32) -> Option<u64> {
        match self {
            PenaltyCase::AnyRuin => Some(CERTAIN),
            PenaltyCase::Below(y) if deficit < u32::from(y) => Some(CERTAIN),
            PenaltyCase::Below(_) => Some(0),
            PenaltyCase::Scaled(m) => {
                let full = 2u64.checked_pow(u32::from(m))?;
                let part = CERTAIN.checked_div(full)?;
                u64::from(deficit).min(full).checked_mul(part)
            }
        }
    }
}

impl Walk {
    // Where a sequence is after one period more.
    fn step(self, period: &PeriodCase, amount: u64) -> Option<Walk> {
        let Walk::At(level) = self else {
            return Some(self);
        };
        let claims = i32::try_from(amount).ok()?;
        let surplus = level.checked_add(1)?.checked_sub(claims)?;
        if surplus <= 0 {
            return Some(Walk::Ruined(period.penalty.price(surplus.unsigned_abs())?));
        }
        Some(Walk::At(period.rule.carried(surplus)))
    }
}

// What one sequence adds to the sum. The digits of its number are its amounts, in the order of time.
fn term(periods: &[PeriodCase], number: u64, level: u16) -> Option<u64> {
    let mut digits = number;
    let mut weight = 1u64;
    let mut walk = Walk::At(i32::from(level));
    for period in periods {
        let base = period.law.amounts();
        let amount = digits.checked_rem(base)?;
        digits = digits.checked_div(base)?;
        weight = weight.checked_mul(period.law.share(amount)?)?;
        walk = walk.step(period, amount)?;
    }
    match walk {
        Walk::At(_) => Some(0),
        Walk::Ruined(price) => weight.checked_mul(price),
    }
}

fn sequences(periods: &[PeriodCase]) -> Option<u64> {
    periods.iter().try_fold(
        1u64,
        |count, period| count.checked_mul(period.law.amounts()),
    )
}

// The exact value of a level, in units of one eighth to the power of the periods.
pub fn exact_sum(periods: &[PeriodCase], level: u16) -> Option<u64> {
    (0..sequences(periods)?).try_fold(0u64, |sum, number| {
        sum.checked_add(term(periods, number, level)?)
    })
}

// Whether the path without claims from a level stays below the length of the row.
pub fn stays(periods: &[PeriodCase], level: u16, long: u16) -> bool {
    let row = i32::from(long);
    periods
        .iter()
        .try_fold(i32::from(level), |at, period| {
            (at < row).then_some(period.rule.carried(at.saturating_add(1)))
        })
        .is_some_and(|at| at < row)
}
