ghost use Rattle.std.specs.Prelude.{◌≡◌, ◌≤◌, length};
ghost use Rattle.claims.specs.Law.{total};
ghost use Rattle.claims.specs.LawfulLists.{table_lawful};
ghost use Rattle.claims.specs.Table.{load_fault, calm_list};
ghost use Rattle.units.specs.Checks.{answer_unless, left_unless};

use super::Table;
use crate::{ClaimLaw, LawFault};
use std::cmp::Ordering;
use units::{Amount, ONE, Weight};

static CALM: [Weight; 1] = [Weight(ONE)];

fn total_weight(list: &[Weight]) -> u64
    requires { length list.now ≤ 4096 }
    ensures { result ≡ total list.now }
{
    list.iter().map(|weight| u64::from(weight.0)).sum()
}

impl<'a> Table<'a> {
    // The calm table: no claims, for certain.
    pub fn calm() -> Table<'a>
        ensures { result.list.now ≡ calm_list }
    {
        Table { list: &CALM }
    }

    pub fn load(&mut self, list: &'a [Weight]) -> Result<(), LawFault>
        ensures answer { result ≡ answer_unless (load_fault list.now) tt }
        ensures list { self.new.list.now ≡ left_unless (load_fault list.now) list.now self.old.list.now }
    {
        if list.is_empty() || list.len() > 4096 {
            return Err(LawFault::ListLength);
        }
        match total_weight(list).cmp(&u64::from(ONE)) {
            Ordering::Greater => Err(LawFault::SumAboveOne),
            Ordering::Less => Err(LawFault::SumBelowOne),
            Ordering::Equal => {
                self.list = list;
                Ok(())
            }
        }
    }
}

impl<'a> ClaimLaw for Table<'a> {
    ghost weights = { λ t. t.list.now };

    ghost lawful = { λ t. table_lawful t.list.now t.some t.few t.whole };

    fn last(&self) -> Amount {
        Amount((self.list.len() - 1) as u16)
    }

    fn weight(&self, amount: Amount) -> Option<Weight> {
        self.list.get(usize::from(amount.0)).copied()
    }
}
