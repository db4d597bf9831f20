ghost use Rattle.std.specs.Prelude.{◌≤◌};
ghost use Rattle.units.specs.One.{one};

pub mod methods;

// A law whose weights are given one by one, by rising amount: the least amount that may come next, the sum of the weights
// so far, and how many were given.
#[derive(Clone, Copy)]
pub struct Draft {
    next: u16,
    sum: u32,
    count: u16,
    ghost few: { next ≤ 4096 },
    ghost share: { sum ≤ one },
    ghost counted: { count ≤ next },
}
