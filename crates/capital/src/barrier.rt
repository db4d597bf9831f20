ghost use Rattle.std.specs.Prelude.{◌≡◌};
ghost use Rattle.capital.specs.Meanings.{barrier_level};
ghost use Rattle.capital.specs.Range.{barrier_fault};
ghost use Rattle.std.specs.Result.{result_map_both};
ghost use Rattle.units.specs.Checks.{answer_unless};
ghost use Rattle.std.proofs.Common.{rules};

use crate::{CapitalFault, CapitalRule};
use units::{Level, PositiveSurplus, Ranged};

// A surplus above the level, 1 to 8,191, is paid out down to it.
// Apart from Floor: one type over both would take the meaning and the fault as parameters, and be longer.
// `new` is written out, here and in the other types of one number in a range: each has a fault of its own.
#[derive(Clone, Copy)]
pub struct Barrier {
    level: Ranged<1, 8191>,
}

impl Barrier {
    pub fn new(level: Level) -> Result<Barrier, CapitalFault>
        ensures { result_map_both (λ b. b.level.value) (λ e. e) result ≡ answer_unless (barrier_fault level) level.0 }
    {
        let level = Ranged::new(i32::from(level.0)).ok_or(CapitalFault::BarrierRange)?;
        Ok(Barrier { level })
    }
}

impl CapitalRule for Barrier {
    ghost carried = { λ barrier surplus. barrier_level barrier.level.value surplus };

    ghost within = { Prim.search rules };

    ghost rising = { Prim.search rules };

    fn carry(&self, surplus: PositiveSurplus) -> Level {
        Level(surplus.value().min(self.level.value()))
    }
}
