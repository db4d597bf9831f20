ghost use Rattle.std.specs.Prelude.{◌≡◌, List, length, Some};
ghost use Rattle.feed.specs.Walk.{walk_of, over, next_record};
ghost use Rattle.run.specs.Calls.{Call};
ghost use Rattle.run.specs.History.{LeadTo, ledger_of};
ghost use Rattle.session.specs.Histories.{calls_after, StepFaithful};
ghost use Rattle.session.specs.Law.{items};
ghost use Rattle.session.specs.Records.{after_record};
ghost use Rattle.session.specs.Stages.{row_of};
ghost use Rattle.session.specs.Step.{at_start, is_full, logged, told, taken, step_answer, after_step, with_log_emptied, Nearer};
ghost use Rattle.session.specs.Views.{state_of, view_of, SameLists};

use crate::book::Book;
use crate::desk::Desk;
use crate::entry::{Entry, Fault};
use crate::fault::SessionFault;
use crate::session::{Progress, Session};
use crate::terms::Terms;
use feed::{Reader, Record};
use roll::Roll;
use run::Pair;
use units::Weight;

impl<'a> Session<'a> {
    // A session over a feed, on lists of any length and content.
    pub fn new(
        feed: &'a [u8],
        weights: &'a mut [Weight],
        board: &'a mut [Pair],
        spare: &'a mut [Pair],
        log: &'a mut [Entry],
    ) -> Session<'a>
        ensures view { view_of result ≡ at_start feed.now weights.old board.old spare.old log.old }
        ensures weights { result.book.weights.slots.ghost_name ≡ weights.entry.ghost_name }
        ensures board { result.desk.board.ghost_name ≡ board.entry.ghost_name }
        ensures spare { result.desk.spare.ghost_name ≡ spare.entry.ghost_name }
        ensures log { result.log.slots.ghost_name ≡ log.entry.ghost_name }
    {
        Session {
            reader: Reader::new(feed),
            book: Book::new(weights),
            terms: Terms::new(),
            desk: Desk::new(board, spare),
            log: Roll::new(log),
        }
    }

    // One entry more, where the log has room.
    fn note(&mut self, entry: Entry)
        ensures walk { walk_of self.new.reader ≡ walk_of self.old.reader }
        ensures state { state_of self.new ≡ state_of self.old }
        ensures log { row_of self.new.log ≡ logged (row_of self.old.log) (Some entry) }
        ensures lists { SameLists self.old self.new }
    {
        let _ = self.log.put(entry);
    }

    fn take_record(&mut self, record: Record, offset: usize)
        ensures walk { walk_of self.new.reader ≡ walk_of self.old.reader }
        ensures state { state_of self.new ≡ after_record «record» (state_of self.old) }
        ensures log { row_of self.new.log ≡ logged (row_of self.old.log) (told «record» offset (state_of self.old)) }
        ensures lists { SameLists self.old self.new }
    {
        match self.act(record) {
            Ok(Some(answered)) => self.note(Entry::Answer(answered)),
            Ok(None) => {}
            Err(cause) => self.note(Entry::Fault(Fault { cause, offset })),
        }
    }

    // Takes what stands next in the feed.
    fn take_next(&mut self)
        ensures view { view_of self.new ≡ taken (next_record (walk_of self.old.reader)) (view_of self.old) }
        ensures lists { SameLists self.old self.new }
    {
        match self.reader.next_record() {
            Some(Ok((record, offset))) => self.take_record(record, offset),
            Some(Err((fault, offset))) => {
                let cause = fault.into();
                self.note(Entry::Fault(Fault { cause, offset }))
            }
            None => {}
        }
    }

    // A method of its own: the checker does not cover a loan of the reader in a method that changes the session.
    fn feed_is_over(&self) -> bool
        ensures { result ≡ over (walk_of self.now.reader) }
    {
        self.reader.is_over()
    }

    fn take_step(&mut self) -> Result<Progress, SessionFault>
        ensures answer { result ≡ step_answer (view_of self.old) }
        ensures view { view_of self.new ≡ after_step (view_of self.old) }
        ensures lists { SameLists self.old self.new }
    {
        if self.feed_is_over() {
            return Ok(Progress::Ended);
        }
        if self.log.is_full() {
            return Err(SessionFault::LogFull);
        }
        self.take_next();
        Ok(Progress::Stepped)
    }

    // Takes one record and logs a refusal, or the bounds that it asks for. The run's history goes on with the call that the
    // record makes, and what an ask is answered with is faithful to the ledger of the calls before.
    pub fn step(&mut self) -> Result<Progress, SessionFault>
        ensures answer { result ≡ step_answer (view_of self.old) }
        ensures view { view_of self.new ≡ after_step (view_of self.old) }
        ensures lists { SameLists self.old self.new }
        ensures nearer { Nearer result (view_of self.old).walk (view_of self.new).walk }
        ensures leads_on { (calls : List Call) → LeadTo calls (state_of self.old).held →
            LeadTo (calls_after (view_of self.old) calls) (state_of self.new).held }
        ensures faithful { let held = (state_of self.old).held in
            ((calls : List Call) → LeadTo calls held →
            StepFaithful (ledger_of (length held.board) (length held.spare) calls) (view_of self.old)) }
    {
        self.take_step()
    }

    // What is logged since the log was emptied.
    pub fn entries(&self) -> &[Entry]
        ensures { result.now ≡ items (view_of self.now).log }
    {
        self.log.items()
    }

    pub fn empty_log(&mut self)
        ensures view { view_of self.new ≡ with_log_emptied (view_of self.old) }
        ensures lists { SameLists self.old self.new }
    {
        self.log.empty();
    }

    // How many whole records were read, refused ones too.
    pub fn whole(&self) -> usize
        ensures { result ≡ (view_of self.now).walk.whole }
    {
        self.reader.whole()
    }
}
