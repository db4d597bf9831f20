ghost use Rattle.std.specs.Prelude.{◌≡◌};
ghost use Rattle.run.specs.Calls.{fresh_on, opens, advances, after, open_answer, advance_answer, ask_answer};
ghost use Rattle.run.specs.Views.{meant};
ghost use Rattle.session.specs.Parts.{held_in};

use capital::{CapitalRule, Penalty};
use claims::ClaimLaw;
use run::{Answer, Pair, Period, Run, RunFault};
use units::Level;

// The run with the board and the spare that every call of it is handed.
// Each call here promises that both are still the lent ones, since their lender knows by that what they hold.
#[derive(Drop)]
pub struct Desk<'a> {
    pub run: Run,
    pub board: &'a mut [Pair],
    pub spare: &'a mut [Pair],
}

impl<'a> Desk<'a> {
    pub fn new(board: &'a mut [Pair], spare: &'a mut [Pair]) -> Desk<'a>
        ensures held { held_in result ≡ fresh_on board.old spare.old }
        ensures board { result.board.ghost_name ≡ board.entry.ghost_name }
        ensures spare { result.spare.ghost_name ≡ spare.entry.ghost_name }
    {
        Desk {
            run: Run::fresh(),
            board,
            spare,
        }
    }

    pub fn open(&mut self, long: u16) -> Result<(), RunFault>
        ensures answer { result ≡ open_answer long (held_in self.old) }
        ensures held { held_in self.new ≡ after (opens long) (held_in self.old) }
        ensures board { self.new.board.ghost_name ≡ self.old.board.ghost_name }
        ensures spare { self.new.spare.ghost_name ≡ self.old.spare.ghost_name }
    {
        // Lent on as it stands: the checker does not cover a field behind `&mut` that is handed on as `&`.
        self.run.open(long, self.board, &mut *self.spare)
    }

    pub fn advance<L: ClaimLaw, R: CapitalRule, P: Penalty>(
        &mut self,
        period: &Period<'_, L, R, P>,
    ) -> Result<(), RunFault>
        ensures answer { let added = meant L.weights R.carried P.priced period.now in
            result ≡ advance_answer added (held_in self.old) }
        ensures held { let added = meant L.weights R.carried P.priced period.now in
            held_in self.new ≡ after (advances added) (held_in self.old) }
        ensures board { self.new.board.ghost_name ≡ self.old.board.ghost_name }
        ensures spare { self.new.spare.ghost_name ≡ self.old.spare.ghost_name }
    {
        self.run.advance(self.board, self.spare, period)
    }

    pub fn ask(&self, level: Level) -> Result<Answer, RunFault>
        ensures { result ≡ ask_answer level.0 (held_in self.now) }
    {
        self.run.ask(self.board, self.spare, level)
    }
}
