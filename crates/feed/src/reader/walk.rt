ghost use Rattle.std.specs.Prelude.{◌≡◌};
ghost use Rattle.feed.specs.Walk.{begun, walk_of, at_place, next_record, Nearer};

use super::{Found, Reader};
use crate::fault::FeedFault;
use crate::reading::read;

// The most bytes that a feed may have.
const MOST: usize = 65_535;

impl<'a> Reader<'a> {
    pub fn new(feed: &'a [u8]) -> Reader<'a>
        ensures { walk_of result ≡ begun feed.now }
    {
        Reader {
            feed,
            place: 0,
            whole: 0,
            ended: false,
        }
    }

    // Takes the next record, unless the feed has ended. A fault ends it.
    pub fn next_record(&mut self) -> Option<Found>
        ensures found { result ≡ (next_record (walk_of self.old)).found }
        ensures after { walk_of self.new ≡ (next_record (walk_of self.old)).after }
        ensures nearer { Nearer result (walk_of self.old) (walk_of self.new) }
    {
        if self.ended {
            return None;
        }
        if self.feed.len() > MOST {
            self.ended = true;
            return Some(Err((FeedFault::TooLong, MOST)));
        }
        self.take_record()
    }

    fn take_record(&mut self) -> Option<Found>
        ensures found { result ≡ (at_place (walk_of self.old)).found }
        ensures after { walk_of self.new ≡ (at_place (walk_of self.old)).after }
        ensures nearer { Nearer result (walk_of self.old) (walk_of self.new) }
    {
        let feed = self.feed;
        let offset = self.place;
        match read(&feed[offset..]) {
            Ok(None) => None,
            Ok(Some((record, rest))) => {
                self.place = feed.len() - rest.len();
                self.whole += 1;
                Some(Ok((record, offset)))
            }
            Err(fault) => {
                self.ended = true;
                Some(Err((fault, offset)))
            }
        }
    }
}

impl Iterator for Reader<'_> {
    ghost use Rattle.feed.specs.Walk.{Takes, most_left};
    ghost use Rattle.std.specs.Iterator.{at_most};

    type Item = Found;

    ghost next_gives = { λ r found after. Takes (walk_of r) found (walk_of after) };

    ghost remaining = { λ r. at_most (most_left (walk_of r)) };

    fn next(&mut self) -> Option<Found> {
        self.next_record()
    }
}
