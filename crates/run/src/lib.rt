// The run: bounds of ruin, level by level, over counted periods.
#![tactic(auto)]

mod answer;
mod caller;
mod fault;
mod figures;
mod pair;
mod period;
mod run;

pub use answer::{Answer, Dropped};
pub use caller::one_period;
pub use fault::RunFault;
pub use figures::figure_count;
pub use pair::{NIL, Pair};
pub use period::Period;
pub use run::Run;

#[cfg(test)]
mod tests;
