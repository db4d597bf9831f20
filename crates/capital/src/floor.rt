ghost use Rattle.std.specs.Prelude.{◌≡◌};
ghost use Rattle.capital.specs.Meanings.{floor_level};
ghost use Rattle.capital.specs.Range.{floor_fault};
ghost use Rattle.std.specs.Result.{result_map_both};
ghost use Rattle.units.specs.Checks.{answer_unless};
ghost use Rattle.std.proofs.Common.{rules};

use crate::{CapitalFault, CapitalRule};
use units::{Level, PositiveSurplus, Ranged};

// A surplus below the level, 1 to 8,191, is lifted to it.
#[derive(Clone, Copy)]
pub struct Floor {
    level: Ranged<1, 8191>,
}

impl Floor {
    pub fn new(level: Level) -> Result<Floor, CapitalFault>
        ensures { result_map_both (λ f. f.level.value) (λ e. e) result ≡ answer_unless (floor_fault level) level.0 }
    {
        let level = Ranged::new(i32::from(level.0)).ok_or(CapitalFault::FloorRange)?;
        Ok(Floor { level })
    }
}

impl CapitalRule for Floor {
    ghost carried = { λ floor surplus. floor_level floor.level.value surplus };

    ghost within = { Prim.search rules };

    ghost rising = { Prim.search rules };

    fn carry(&self, surplus: PositiveSurplus) -> Level {
        Level(surplus.value().max(self.level.value()))
    }
}
