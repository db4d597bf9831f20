ghost use Rattle.std.specs.Prelude.{◌≡◌, List, length};
ghost use Rattle.run.specs.Calls.{Call, fresh as fresh_run, opens, after, open_answer, ask_answer};
ghost use Rattle.run.specs.History.{LeadTo, Faithful, ledger_of};
ghost use Rattle.run.specs.Views.{kept_by, held_by};

use super::{Opened, Run};
use crate::pair::NIL;
use crate::{Answer, Dropped, Pair, RunFault};
use units::{Level, Periods};

impl Run {
    // A run that is not open yet.
    pub fn fresh() -> Run
        ensures { kept_by result ≡ fresh_run }
    {
        Run { opened: None }
    }

    // Starts over with no periods, whether the run was open or not.
    pub fn open(&mut self, long: u16, board: &mut [Pair], spare: &[Pair]) -> Result<(), RunFault>
        ensures answer { result ≡ open_answer long (held_by self.old board.old spare.now) }
        ensures leaves { held_by self.new board.new spare.now
            ≡ after (opens long) (held_by self.old board.old spare.now) }
    {
        if !(2..=8192).contains(&long) {
            return Err(RunFault::LengthRange);
        }
        let row = long as usize;
        // Written out in each of the three calls: the contract of a function for it would be longer than the test.
        if board.len() < row || spare.len() < row {
            return Err(RunFault::ListShort);
        }
        board[0..row].fill(NIL);
        self.opened = Some(Opened {
            long,
            known: long,
            periods: 0,
            dropped: 0,
        });
        Ok(())
    }

    // What ask answers, apart from it, so that the faithfulness is proved once and not at each return.
    fn look_up(&self, board: &[Pair], spare: &[Pair], level: Level) -> Result<Answer, RunFault>
        ensures { result ≡ ask_answer level.0 (held_by self.now board.now spare.now) }
    {
        let opened = self.opened.ok_or(RunFault::Unopened)?;
        let row = opened.long as usize;
        if board.len() < row || spare.len() < row {
            return Err(RunFault::ListShort);
        }
        if level.0 >= opened.known {
            return Err(RunFault::LevelUnknown);
        }
        Ok(Answer {
            pair: board[level.0 as usize],
            periods: Periods(opened.periods),
            dropped: Dropped(opened.dropped),
        })
    }

    // The bounds of a level, faithful to the ledger of whatever calls led to this run, board and spare.
    pub fn ask(&self, board: &[Pair], spare: &[Pair], level: Level) -> Result<Answer, RunFault>
        ensures answer { result ≡ ask_answer level.0 (held_by self.now board.now spare.now) }
        ensures faithful { let held = held_by self.now board.now spare.now in
            ((calls : List Call) → LeadTo calls held →
            Faithful (ledger_of (length held.board) (length held.spare) calls) level.0 result) }
    {
        self.look_up(board, spare, level)
    }
}
