ghost use Rattle.std.specs.Prelude.{◌≡◌};
ghost use Rattle.claims.specs.Limit.{limit_fault};
ghost use Rattle.std.specs.Result.{result_map_both};
ghost use Rattle.units.specs.Checks.{answer_unless};

use crate::LawFault;
use units::{Amount, Ranged};

// The largest amount that stays with the club.
#[derive(Clone, Copy)]
pub struct Limit {
    amount: Ranged<1, 4095>,
}

impl Limit {
    pub fn new(amount: Amount) -> Result<Limit, LawFault>
        ensures { result_map_both (λ l. l.amount.value) (λ f. f) result ≡ answer_unless (limit_fault amount) amount.0 }
    {
        let amount = Ranged::new(i32::from(amount.0)).ok_or(LawFault::LimitRange)?;
        Ok(Limit { amount })
    }

    // The highest limit.
    pub fn most() -> Limit
        ensures { result.amount.value ≡ 4095 }
    {
        Limit {
            amount: Ranged::new(4095).unwrap(),
        }
    }

    pub fn amount(self) -> Amount
        ensures { result.0 ≡ self.amount.value }
    {
        Amount(self.amount.value())
    }
}
