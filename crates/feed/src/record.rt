use units::{Amount, Level, Weight};

// One entry of a feed: the letter of its kind, and the body whose length the kind fixes.
#[derive(Clone, Copy, PartialEq, Eq, Debug)]
pub enum Record {
    // w: amount and weight
    Claim(Amount, Weight),
    // e: count of the law's accepted w records
    EndLaw(u16),
    // z
    ScrapLaw,
    // s: size and weight
    SingleSize(Amount, Weight),
    // c: limit
    Retain(Amount),
    // n
    Plain,
    // f: floor
    Floor(Level),
    // b: barrier
    Barrier(Level),
    // p
    AnyRuin,
    // y: deficit
    BelowDeficit(u16),
    // m: scale
    Scaled(u8),
    // a: allowance
    Allowance(Weight),
    // o: length of the row
    Open(u16),
    // t
    Advance,
    // u: level
    Ask(Level),
}
