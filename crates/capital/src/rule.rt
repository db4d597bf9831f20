ghost use Rattle.std.specs.Prelude.{◌≡◌, ℕ};
ghost use Rattle.capital.specs.Laws.{Within, Rising};

use units::{Level, PositiveSurplus};

// A capital rule carries a surplus of 1 to 8,192 to the level where the next period starts.
pub trait CapitalRule {
    ghost carried: { Self → ℕ → ℕ };

    fn carry(&self, surplus: PositiveSurplus) -> Level
        ensures { result.0 ≡ carried self.now surplus.number.value };

    ghost within: { (rule : Self) → Within (carried rule) };

    ghost rising: { (rule : Self) → Rising (carried rule) };
}
