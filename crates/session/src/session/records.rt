ghost use Rattle.std.specs.Prelude.{◌≡◌};
ghost use Rattle.run.specs.Calls.{advances, after, advance_answer};
ghost use Rattle.session.specs.Law.{items, whole_law};
ghost use Rattle.session.specs.Parts.{law_of, agreed_by, held_in};
ghost use Rattle.session.specs.Records.{record_fault};
ghost use Rattle.session.specs.Stages.{row_of, weights_from};
ghost use Rattle.session.specs.Terms.{period_by};
ghost use Rattle.session.specs.Views.{state_of, Acts};

use super::Session;
use crate::book::{Book, Source, Stage};
use crate::cause::Cause;
use crate::desk::Desk;
use crate::entry::Answered;
use crate::fault::SessionFault;
use crate::terms::{Price, Rule, Terms};
use capital::{Barrier, Below, Floor, Scaled};
use claims::{ClaimLaw, Limit, Retained, Table};
use feed::Record;
use run::{Period, RunFault};

pub mod steps;

// Adds a period of what is retained of a law, by the terms.
fn add_period<L: ClaimLaw + Drop>(desk: &mut Desk<'_>, law: L, terms: Terms) -> Result<(), RunFault>
    ensures answer { result ≡ advance_answer (period_by (agreed_by terms) (L.weights law)) (held_in desk.old) }
    ensures held { held_in desk.new ≡ after (advances (period_by (agreed_by terms) (L.weights law))) (held_in desk.old) }
    ensures board { desk.new.board.ghost_name ≡ desk.old.board.ghost_name }
    ensures spare { desk.new.spare.ghost_name ≡ desk.old.spare.ghost_name }
{
    let retained = Retained::new(law, terms.limit);
    let period = Period {
        law: &retained,
        rule: &terms.rule,
        penalty: &terms.price,
        allowance: terms.allowance,
    };
    desk.advance(&period)
}

// The same of the whole law from its source. A table takes the list on the roll without a refusal.
fn add_period_from(
    desk: &mut Desk<'_>,
    book: &Book<'_>,
    terms: Terms,
    source: Source,
) -> Result<(), RunFault>
    requires { law_of book.now ≡ whole_law (weights_from source (items (row_of book.now.weights))) }
    ensures answer { result ≡ advance_answer (period_by (agreed_by terms) (weights_from source (items (row_of book.now.weights)))) (held_in desk.old) }
    ensures held { held_in desk.new
        ≡ after (advances (period_by (agreed_by terms) (weights_from source (items (row_of book.now.weights))))) (held_in desk.old) }
    ensures board { desk.new.board.ghost_name ≡ desk.old.board.ghost_name }
    ensures spare { desk.new.spare.ghost_name ≡ desk.old.spare.ghost_name }
{
    match source {
        Source::Listed => {
            let mut table = Table::calm();
            table.load(book.weights.items()).unwrap();
            add_period(desk, table, terms)
        }
        Source::Single(single) => add_period(desk, single, terms),
    }
}

impl Session<'_> {
    // What a record does depends on the stage and the kind together.
    fn act(&mut self, record: Record) -> Result<Option<Answered>, Cause>
        ensures { Acts «record» (record_fault «record» (state_of self.old)) self.old self.new result }
    {
        match (record, self.book.stage) {
            (Record::Claim(amount, weight), _) => self.book.claim(amount, weight)?,
            (Record::ScrapLaw, _) => self.book.scrap(),
            (Record::EndLaw(count), Stage::PartLaw(_)) => self.book.end(count)?,
            (_, Stage::PartLaw(_)) | (Record::EndLaw(_), _) | (Record::Advance, Stage::NoLaw) =>
                return Err(SessionFault::NotTaken.into()),
            (Record::Advance, Stage::WholeLaw(source)) => add_period_from(
                &mut self.desk,
                &self.book,
                self.terms,
                source,
            )?,
            (Record::SingleSize(size, weight), _) => self.book.single(size, weight)?,
            (Record::Retain(limit), _) => self.terms.limit = Limit::new(limit)?,
            (Record::Plain, _) => self.terms.rule = Rule::Plain,
            (Record::Floor(level), _) => self.terms.rule = Rule::Floor(Floor::new(level)?),
            (Record::Barrier(level), _) => self.terms.rule = Rule::Barrier(Barrier::new(level)?),
            (Record::AnyRuin, _) => self.terms.price = Price::AnyRuin,
            (Record::BelowDeficit(y), _) => self.terms.price = Price::Below(Below::new(y)?),
            (Record::Scaled(m), _) => self.terms.price = Price::Scaled(Scaled::new(m)?),
            (Record::Allowance(allowance), _) => self.terms.allow(allowance)?,
            (Record::Open(long), _) => self.desk.open(long)?,
            (Record::Ask(level), _) => {
                let answer = self.desk.ask(level)?;
                return Ok(Some(Answered { level, answer }));
            }
        }
        Ok(None)
    }
}
