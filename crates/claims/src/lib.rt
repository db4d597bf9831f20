// Claim laws: how likely each amount of claims is in one period.
#![tactic(auto)]

mod draft;
mod fault;
mod law;
mod limit;
mod retained;
mod single_size;
mod table;

pub use draft::Draft;
pub use fault::LawFault;
pub use law::ClaimLaw;
pub use limit::Limit;
pub use retained::Retained;
pub use single_size::SingleSize;
pub use table::Table;

#[cfg(test)]
mod tests;
