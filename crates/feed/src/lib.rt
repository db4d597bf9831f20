// Records: their kinds, reading and writing.
#![tactic(auto)]

mod fault;
mod kind;
mod reader;
mod reading;
mod record;
mod taking;
mod writing;

pub use fault::FeedFault;
pub use kind::body_length;
pub use reader::{Found, Reader};
pub use reading::read;
pub use record::Record;
pub use taking::take_feed;
pub use writing::write;

#[cfg(test)]
mod tests;
