// A row of slots in the caller's memory with a fill count.
#![tactic(auto)]

mod fault;
mod roll;

pub use fault::RollFault;
pub use roll::Roll;

#[cfg(test)]
mod tests;
