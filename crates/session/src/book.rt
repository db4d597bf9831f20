ghost use Rattle.std.specs.Prelude.{◌≡◌, ◌<◌, ◌≤◌, length};
ghost use Rattle.claims.specs.Draft.{end_fault};
ghost use Rattle.claims.specs.Drafts.{given_by};
ghost use Rattle.claims.specs.SingleSize.{single_fault, single_weights};
ghost use Rattle.session.specs.Law.{no_law, whole_law, items, emptied, placed, given_in, claim_fault, claimed_law, claimed_row};
ghost use Rattle.session.specs.Sound.{Sound};
ghost use Rattle.session.specs.Stages.{row_of, law_by};
ghost use Rattle.units.specs.Checks.{answer_unless, left_unless};

use crate::cause::Cause;
use claims::{Draft, LawFault, SingleSize};
use roll::{Roll, RollFault};
use units::{Amount, Weight};

// Where the weights of a whole law are. Not an Option: the listed ones are a law too.
#[derive(Clone, Copy)]
pub enum Source {
    Listed,
    Single(SingleSize),
}

// How far the law is given.
#[derive(Clone, Copy)]
pub enum Stage {
    NoLaw,
    PartLaw(Draft),
    WholeLaw(Source),
}

// The law that a session is given, and the roll that its weights are put on.
#[derive(Drop)]
pub struct Book<'a> {
    pub stage: Stage,
    pub weights: Roll<'a, Weight>,
    ghost sound: { Sound (law_by stage (items (row_of weights))) (row_of weights) },
}

// Puts the weight at its amount, and blanks at the amounts between that were not given.
fn place(weights: &mut Roll<'_, Weight>, amount: Amount, weight: Weight)
    requires below { weights.old.filled ≤ amount.0 }
    requires room { amount.0 < length weights.old.slots.now }
    ensures weights { row_of weights.new ≡ placed (row_of weights.old) amount.0 weight }
    ensures lent { weights.new.slots.ghost_name ≡ weights.old.slots.ghost_name }
{
    weights.pad(usize::from(amount.0), Weight(0)).unwrap();
    weights.put(weight).unwrap();
}

impl<'a> Book<'a> {
    ghost use Rattle.session.specs.Parts.{law_of};

    pub fn new(slots: &'a mut [Weight]) -> Book<'a>
        ensures law { law_of result ≡ no_law }
        ensures weights { row_of result.weights ≡ record { slots = slots.entry.now; filled = 0 } }
        ensures lent { result.weights.slots.ghost_name ≡ slots.entry.ghost_name }
    {
        Book {
            stage: Stage::NoLaw,
            weights: Roll::new(slots),
        }
    }

    // What is given of the law; outside part law nothing is.
    fn draft(&self) -> Draft
        ensures { given_by result ≡ given_in (law_of self.now) }
    {
        match self.stage {
            Stage::PartLaw(draft) => draft,
            Stage::NoLaw | Stage::WholeLaw(_) => Draft::begin(),
        }
    }

    // One weight more; outside part law it begins a new law, on the emptied roll.
    pub fn claim(&mut self, amount: Amount, weight: Weight) -> Result<(), Cause>
        ensures answer { result ≡ answer_unless (claim_fault (law_of self.old) (row_of self.old.weights) amount weight) tt }
        ensures law { law_of self.new ≡ left_unless (claim_fault (law_of self.old) (row_of self.old.weights) amount weight)
            (claimed_law (law_of self.old) amount weight) (law_of self.old) }
        ensures weights { row_of self.new.weights
            ≡ left_unless (claim_fault (law_of self.old) (row_of self.old.weights) amount weight)
            (claimed_row (law_of self.old) (row_of self.old.weights) amount weight) (row_of self.old.weights) }
        ensures lent { self.new.weights.slots.ghost_name ≡ self.old.weights.slots.ghost_name }
    {
        let claimed = self.draft().give(amount, weight)?;
        if self.weights.capacity() <= usize::from(amount.0) {
            return Err(RollFault::Full.into());
        }
        if !matches!(self.stage, Stage::PartLaw(_)) {
            self.weights.empty();
        }
        place(&mut self.weights, amount, weight);
        self.stage = Stage::PartLaw(claimed);
        Ok(())
    }

    // The law is whole, if the count and the sum are right.
    pub fn end(&mut self, count: u16) -> Result<(), LawFault>
        ensures answer { result ≡ answer_unless (end_fault (given_in (law_of self.old)) count) tt }
        ensures law { law_of self.new ≡ left_unless (end_fault (given_in (law_of self.old)) count)
            (whole_law (items (row_of self.old.weights))) (law_of self.old) }
        ensures weights { self.new.weights ≡ self.old.weights }
    {
        let draft = self.draft();
        draft.end(count)?;
        self.stage = Stage::WholeLaw(Source::Listed);
        Ok(())
    }

    pub fn scrap(&mut self)
        ensures law { law_of self.new ≡ no_law }
        ensures weights { row_of self.new.weights ≡ emptied (row_of self.old.weights) }
        ensures lent { self.new.weights.slots.ghost_name ≡ self.old.weights.slots.ghost_name }
    {
        self.weights.empty();
        self.stage = Stage::NoLaw;
    }

    // A single-size law is whole at once, and leaves the roll alone.
    pub fn single(&mut self, size: Amount, weight: Weight) -> Result<(), LawFault>
        ensures answer { result ≡ answer_unless (single_fault size weight) tt }
        ensures law { law_of self.new ≡ left_unless (single_fault size weight) (whole_law (single_weights size weight)) (law_of self.old) }
        ensures weights { self.new.weights ≡ self.old.weights }
    {
        let single = SingleSize::new(size, weight)?;
        self.stage = Stage::WholeLaw(Source::Single(single));
        Ok(())
    }
}
