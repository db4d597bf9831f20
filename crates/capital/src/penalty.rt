ghost use Rattle.std.specs.Prelude.{◌≡◌, ℕ};
ghost use Rattle.capital.specs.Laws.{Bounded};

use units::{Deficit, Weight};

// A penalty prices a deficit of 0 to 4,095.
pub trait Penalty {
    ghost priced: { Self → ℕ → ℕ };

    fn price(&self, deficit: Deficit) -> Weight
        ensures { result.0 ≡ priced self.now deficit.number.value };

    ghost bounded: { (penalty : Self) → Bounded (priced penalty) };
}
