// The numbers of the model, each in a type of its own, so that none is taken for another.
#![tactic(auto)]

ghost use Rattle.std.specs.Prelude.{◌≡◌};
ghost use Rattle.units.specs.Surplus.{surplus_of};

mod deficit;
mod positive_surplus;
mod ranged;

pub use deficit::Deficit;
pub use positive_surplus::PositiveSurplus;
pub use ranged::Ranged;

// The whole of a probability: a weight of ONE is certain.
pub const ONE: u32 = 1 << 30;

// A share of ONE.
#[derive(Clone, Copy, PartialEq, Eq, Debug)]
pub struct Weight(pub u32);

// The fund's money, in whole premiums.
#[derive(Clone, Copy, PartialEq, Eq, Debug)]
pub struct Level(pub u16);

// The claims of one period, in whole premiums.
#[derive(Clone, Copy, PartialEq, Eq, PartialOrd, Ord, Debug)]
pub struct Amount(pub u16);

// A count of periods.
#[derive(Clone, Copy, PartialEq, Eq, Debug)]
pub struct Periods(pub u16);

// What a period that starts at `level` and pays `amount` ends with, after one premium.
pub fn surplus(level: Level, amount: Amount) -> i32
    ensures { result ≡ surplus_of level.0 amount.0 }
{
    i32::from(level.0) + 1 - i32::from(amount.0)
}

#[cfg(test)]
mod tests;
