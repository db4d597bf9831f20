// What a period's end leads to: capital rules for a surplus, penalties for a deficit.
#![tactic(auto)]

mod any_ruin;
mod barrier;
mod below;
mod fault;
mod floor;
mod penalty;
mod plain;
mod rule;
mod scaled;

pub use any_ruin::AnyRuin;
pub use barrier::Barrier;
pub use below::Below;
pub use fault::CapitalFault;
pub use floor::Floor;
pub use penalty::Penalty;
pub use plain::Plain;
pub use rule::CapitalRule;
pub use scaled::Scaled;

#[cfg(test)]
mod tests;
