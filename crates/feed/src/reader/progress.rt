ghost use Rattle.std.specs.Prelude.{◌≡◌};
ghost use Rattle.feed.specs.Walk.{walk_of, left, over};

use super::Reader;

impl Reader<'_> {
    // How many whole records were read.
    pub fn whole(&self) -> usize
        ensures { result ≡ (walk_of self.now).whole }
    {
        self.whole
    }

    // How many bytes are not read yet.
    pub fn left(&self) -> usize
        ensures { result ≡ left (walk_of self.now) }
    {
        self.feed.len() - self.place
    }

    // Whether nothing more is to come.
    pub fn is_over(&self) -> bool
        ensures { result ≡ over (walk_of self.now) }
    {
        self.ended || self.feed.len() == self.place
    }
}
