// A lower and an upper bound, in shares of ONE.
#[derive(Clone, Copy, PartialEq, Eq, Debug)]
pub struct Pair {
    pub lower: u32,
    pub upper: u32,
}

// What a level has before a period, and an unknown one.
pub const NIL: Pair = Pair { lower: 0, upper: 0 };
