// Periods told by plain numbers. The engine's values and the exact sum are both made of them, each in its own way.
use std::fmt;

// The weights of a list, in eighths of ONE, the first of amount 0.
#[derive(Clone, Copy)]
pub struct Shares(pub &'static [u32]);

#[derive(Clone, Copy)]
pub enum LawCase {
    Listed(Shares),
    Single { size: u16, eighths: u32 },
    Retained { below: Shares, limit: u16 },
}

#[derive(Clone, Copy)]
pub enum RuleCase {
    Plain,
    Floor(u16),
    Barrier(u16),
}

#[derive(Clone, Copy)]
pub enum PenaltyCase {
    AnyRuin,
    Below(u16),
    Scaled(u8),
}

#[derive(Clone, Copy)]
pub struct PeriodCase {
    pub law: LawCase,
    pub rule: RuleCase,
    pub penalty: PenaltyCase,
    pub allowance: u32,
}

impl fmt::Display for Shares {
    fn fmt<W: fmt::Write>(&self, f: &mut fmt::Formatter<W>) -> fmt::Result {
        for (place, eighths) in self.0.iter().enumerate() {
            let comma = if place == 0 { "" } else { ", " };
            write!(f, "{comma}{eighths}")?;
        }
        write!(f, " eighths")
    }
}

impl fmt::Display for LawCase {
    fn fmt<W: fmt::Write>(&self, f: &mut fmt::Formatter<W>) -> fmt::Result {
        match self {
            LawCase::Listed(shares) => write!(f, "{shares}"),
            LawCase::Single { size, eighths } => write!(f, "size {size} at {eighths} eighths"),
            LawCase::Retained { below, limit } => write!(f, "{below} retained at {limit}"),
        }
    }
}

impl fmt::Display for RuleCase {
    fn fmt<W: fmt::Write>(&self, f: &mut fmt::Formatter<W>) -> fmt::Result {
        match self {
            RuleCase::Plain => write!(f, "plain"),
            RuleCase::Floor(level) => write!(f, "floor {level}"),
            RuleCase::Barrier(level) => write!(f, "barrier {level}"),
        }
    }
}

impl fmt::Display for PenaltyCase {
    fn fmt<W: fmt::Write>(&self, f: &mut fmt::Formatter<W>) -> fmt::Result {
        match self {
            PenaltyCase::AnyRuin => write!(f, "any-ruin"),
            PenaltyCase::Below(y) => write!(f, "below-{y}"),
            PenaltyCase::Scaled(m) => write!(f, "scaled-{m}"),
        }
    }
}

impl fmt::Display for PeriodCase {
    fn fmt<W: fmt::Write>(&self, f: &mut fmt::Formatter<W>) -> fmt::Result {
        let PeriodCase {
            law,
            rule,
            penalty,
            ..
        } = self;
        write!(f, "{law}, {rule}, {penalty}")
    }
}
