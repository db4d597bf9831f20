ghost use Rattle.std.specs.Prelude.{◌≤◌, length};

use crate::fault::FeedFault;
use crate::record::Record;

mod progress;
mod walk;

// What stands next: a record or the fault that ends the feed, with the offset of its first byte.
pub type Found = Result<(Record, usize), (FeedFault, usize)>;

// A walk over a feed: the place of its next record, how many whole ones were read, and whether it has ended.
// `ended` stands beside the place, since the bytes left are told behind a fault too.
#[derive(Drop)]
pub struct Reader<'a> {
    feed: &'a [u8],
    place: usize,
    whole: usize,
    ended: bool,
    ghost within: { place ≤ length feed.now },
    ghost counted: { whole ≤ place },
}
