// A session: what the records of a feed do, one step at a time, and the log of what is told.
#![tactic(auto)]

mod book;
mod cause;
mod desk;
mod entry;
mod fault;
mod session;
mod terms;

pub use cause::Cause;
pub use entry::{Answered, Entry, Fault};
pub use fault::SessionFault;
pub use session::{Progress, Session};
