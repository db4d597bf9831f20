use crate::Pair;
use units::Periods;

// The weight that the cuts of a run have left out, in shares of ONE.
#[derive(Clone, Copy, PartialEq, Eq, Debug)]
pub struct Dropped(pub u32);

// A level's bounds, with the periods they cover and the weight left out.
#[derive(Clone, Copy, PartialEq, Eq, Debug)]
pub struct Answer {
    pub pair: Pair,
    pub periods: Periods,
    pub dropped: Dropped,
}
