ghost use Rattle.std.specs.Prelude.{◌≡◌};
ghost use Rattle.session.specs.Parts.{agreed_by, carried_by, priced_by};
ghost use Rattle.session.specs.Standing.{carried-within, carried-rising, priced-bounded};
ghost use Rattle.session.specs.Terms.{at_first, with_allowance, allowance_fault};
ghost use Rattle.units.specs.Checks.{answer_unless, left_unless};

use capital::{AnyRuin, Barrier, Below, CapitalRule, Floor, Penalty, Plain, Scaled};
use claims::Limit;
use run::RunFault;
use units::{Deficit, Level, PositiveSurplus, Weight};

// The capital rule that stands. An enum: terms own their rule and ask for no memory, so a dyn rule could only be lent.
#[derive(Clone, Copy)]
pub enum Rule {
    Plain,
    Floor(Floor),
    Barrier(Barrier),
}

impl CapitalRule for Rule {
    ghost carried = { carried_by };

    ghost within = { carried-within };

    ghost rising = { carried-rising };

    fn carry(&self, surplus: PositiveSurplus) -> Level {
        match self {
            Rule::Plain => Plain.carry(surplus),
            Rule::Floor(floor) => floor.carry(surplus),
            Rule::Barrier(barrier) => barrier.carry(surplus),
        }
    }
}

// The penalty that stands, an enum as the rule is.
#[derive(Clone, Copy)]
pub enum Price {
    AnyRuin,
    Below(Below),
    Scaled(Scaled),
}

impl Penalty for Price {
    ghost priced = { priced_by };

    ghost bounded = { priced-bounded };

    fn price(&self, deficit: Deficit) -> Weight {
        match self {
            Price::AnyRuin => AnyRuin.price(deficit),
            Price::Below(below) => below.price(deficit),
            Price::Scaled(scaled) => scaled.price(deficit),
        }
    }
}

// What an advance works with, beside the law.
#[derive(Clone, Copy)]
pub struct Terms {
    pub rule: Rule,
    pub price: Price,
    pub allowance: Weight,
    pub limit: Limit,
}

impl Terms {
    pub fn new() -> Terms
        ensures { agreed_by result ≡ at_first }
    {
        Terms {
            rule: Rule::Plain,
            price: Price::AnyRuin,
            allowance: Weight(0),
            limit: Limit::most(),
        }
    }

    // Checked as an advance checks it, which has other callers; a function for one comparison would be longer.
    pub fn allow(&mut self, allowance: Weight) -> Result<(), RunFault>
        ensures answer { result ≡ answer_unless (allowance_fault allowance) tt }
        ensures agreed { agreed_by self.new ≡ left_unless (allowance_fault allowance) (with_allowance (agreed_by self.old) allowance.0) (agreed_by self.old) }
    {
        if allowance.0 > 1 << 20 {
            return Err(RunFault::AllowanceRange);
        }
        self.allowance = allowance;
        Ok(())
    }
}
