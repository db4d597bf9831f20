ghost use Rattle.std.specs.Prelude.{◌≡◌};
ghost use Rattle.claims.specs.Draft.{nothing_given, give_fault, given_also, end_fault};
ghost use Rattle.claims.specs.Drafts.{given_by};
ghost use Rattle.std.specs.Result.{result_map_both};
ghost use Rattle.units.specs.Checks.{answer_unless};

use super::Draft;
use crate::LawFault;
use units::{Amount, ONE, Weight};

impl Draft {
    // Nothing is given yet.
    pub fn begin() -> Draft
        ensures { given_by result ≡ nothing_given }
    {
        Draft {
            next: 0,
            sum: 0,
            count: 0,
        }
    }

    // The draft with one weight more; amounts that are left out weigh nothing.
    pub fn give(self, amount: Amount, weight: Weight) -> Result<Draft, LawFault>
        ensures { result_map_both given_by (λ f. f) result ≡ answer_unless (give_fault (given_by self) amount weight) (given_also (given_by self) amount weight) }
    {
        if amount.0 > 4095 {
            return Err(LawFault::AmountRange);
        }
        if amount.0 < self.next {
            return Err(LawFault::AmountOrder);
        }
        if weight.0 > ONE - self.sum {
            return Err(LawFault::SumAboveOne);
        }
        Ok(Draft {
            next: amount.0 + 1,
            sum: self.sum + weight.0,
            count: self.count + 1,
        })
    }

    // Whether the law is whole, and the count is that of the weights given.
    pub fn end(self, count: u16) -> Result<(), LawFault>
        ensures { result ≡ answer_unless (end_fault (given_by self) count) tt }
    {
        if count != self.count {
            return Err(LawFault::CountDiffers);
        }
        if self.sum < ONE {
            return Err(LawFault::SumBelowOne);
        }
        Ok(())
    }
}
