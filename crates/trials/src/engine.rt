// A run on lists of its own, and the library's laws, rules and penalties of the periods that plain numbers tell.
use crate::cases::{LawCase, PenaltyCase, PeriodCase, RuleCase, Shares};
use capital::{AnyRuin, Barrier, Below, CapitalRule, Floor, Penalty, Plain, Scaled};
use claims::{ClaimLaw, LawFault, Limit, Retained, SingleSize, Table};
pub use run::NIL;
use run::{Answer, Pair, Period, Run, RunFault};
use session::Cause;
use std::alloc::{AllocError, Global};
use units::{Amount, Level, Weight};

const EIGHTH: u32 = 1 << 27;

// What a call answers that makes a law, a rule and a penalty, and is refused by the first of them that is. Apart from
// AllocError: a refusal is what is tried, and want of memory ends the trials.
pub type Refusable = Result<(), Cause>;

// A run with the two lists that it works on.
#[derive(Drop)]
pub struct Bench {
    heap: Global,
    run: Run,
    board: Vec<Pair>,
    spare: Vec<Pair>,
}

// What can be seen of a bench: its lists, and what an ask of level 0 tells.
#[derive(PartialEq, Drop)]
pub struct Seen {
    board: Vec<Pair>,
    spare: Vec<Pair>,
    pub told: Result<Answer, RunFault>,
}

// How many pairs of each list a call is lent.
#[derive(Clone, Copy)]
pub struct Lent {
    pub board: usize,
    pub spare: usize,
}

// The first pairs of a list, or all where there are fewer.
fn first(list: &mut Vec<Pair>, count: usize) -> &mut [Pair] {
    let count = count.min(list.len());
    &mut list.as_mut_slice()[..count]
}

fn weight(eighths: u32) -> Weight {
    Weight(eighths.saturating_mul(EIGHTH))
}

// The list of weights of a law, or of the law below it. A single size has none.
fn weights(heap: Global, law: LawCase) -> Result<Vec<Weight>, AllocError> {
    let shares = match law {
        LawCase::Listed(shares) => shares,
        LawCase::Single { .. } => Shares(&[]),
        LawCase::Retained { below, .. } => below,
    };
    shares
        .0
        .iter()
        .map(|eighths| weight(*eighths))
        .collect(heap)
}

pub fn table(list: &[Weight]) -> Result<Table<'_>, LawFault> {
    let mut table = Table::calm();
    table.load(list)?;
    Ok(table)
}

impl Bench {
    // A run that is not open yet, with lists of copies of a pair.
    pub fn new(heap: Global, pair: Pair, board: u16, spare: u16) -> Result<Bench, AllocError> {
        Ok(Bench {
            heap,
            run: Run::fresh(),
            board: vec![in heap; pair; usize::from(board)]?,
            spare: vec![in heap; pair; usize::from(spare)]?,
        })
    }

    fn whole(&self) -> Lent {
        Lent {
            board: self.board.len(),
            spare: self.spare.len(),
        }
    }

    pub fn open(&mut self, long: u16) -> Result<(), RunFault> {
        let whole = self.whole();
        self.open_on(whole, long)
    }

    pub fn open_on(&mut self, lent: Lent, long: u16) -> Result<(), RunFault> {
        let board = first(&mut self.board, lent.board);
        let spare = first(&mut self.spare, lent.spare);
        self.run.open(long, board, spare)
    }

    pub fn ask(&self, level: u16) -> Result<Answer, RunFault> {
        self.ask_on(self.whole(), level)
    }

    pub fn ask_on(&self, lent: Lent, level: u16) -> Result<Answer, RunFault> {
        let board = &self.board.as_slice()[..lent.board.min(self.board.len())];
        let spare = &self.spare.as_slice()[..lent.spare.min(self.spare.len())];
        self.run.ask(board, spare, Level(level))
    }

    pub fn seen(&self) -> Result<Seen, AllocError> {
        Ok(Seen {
            board: self.board.clone()?,
            spare: self.spare.clone()?,
            told: self.ask(0),
        })
    }

    // Opens the run and adds the periods, which stand in the order of time: the last in time is added first.
    pub fn work(&mut self, long: u16, periods: &[PeriodCase]) -> Result<Refusable, AllocError> {
        if let Err(fault) = self.open(long) {
            return Ok(Err(fault.into()));
        }
        for period in periods.iter().rev() {
            if let Err(cause) = self.add(period)? {
                return Ok(Err(cause));
            }
        }
        Ok(Ok(()))
    }

    // Adds a period until it is refused: how many times it was taken, and what the call after them answered.
    pub fn fill(&mut self, period: &PeriodCase) -> Result<(u32, Refusable), AllocError> {
        for taken in 0..5000 {
            let answer = self.add(period)?;
            if answer.is_err() {
                return Ok((taken, answer));
            }
        }
        Ok((5000, Ok(())))
    }

    pub fn advance<L: ClaimLaw, R: CapitalRule, P: Penalty>(
        &mut self,
        period: &Period<'_, L, R, P>,
    ) -> Result<(), RunFault> {
        let whole = self.whole();
        self.advance_on(whole, period)
    }

    fn advance_on<L: ClaimLaw, R: CapitalRule, P: Penalty>(
        &mut self,
        lent: Lent,
        period: &Period<'_, L, R, P>,
    ) -> Result<(), RunFault> {
        let board = first(&mut self.board, lent.board);
        let spare = first(&mut self.spare, lent.spare);
        self.run.advance(board, spare, period)
    }

    pub fn add(&mut self, period: &PeriodCase) -> Result<Refusable, AllocError> {
        let whole = self.whole();
        self.add_on(whole, period)
    }

    pub fn add_on(&mut self, lent: Lent, period: &PeriodCase) -> Result<Refusable, AllocError> {
        let list = weights(self.heap, period.law)?;
        Ok(self.add_listed(lent, list.as_slice(), period))
    }

    // A function for each choice, so that every law, rule and penalty is tried as its own type.
    // The list is that of `weights`, which a single size leaves aside.
    fn add_listed(&mut self, lent: Lent, list: &[Weight], period: &PeriodCase) -> Refusable {
        match period.law {
            LawCase::Listed(_) => self.add_lawful(lent, &table(list)?, period),
            LawCase::Single { size, eighths } => {
                let law = SingleSize::new(Amount(size), weight(eighths))?;
                self.add_lawful(lent, &law, period)
            }
            LawCase::Retained { limit, .. } => {
                let limit = Limit::new(Amount(limit))?;
                self.add_lawful(lent, &Retained::new(table(list)?, limit), period)
            }
        }
    }

    fn add_lawful<L: ClaimLaw>(&mut self, lent: Lent, law: &L, period: &PeriodCase) -> Refusable {
        match period.rule {
            RuleCase::Plain => self.add_ruled(lent, law, &Plain, period),
            RuleCase::Floor(level) => self.add_ruled(lent, law, &Floor::new(Level(level))?, period),
            RuleCase::Barrier(level) => {
                self.add_ruled(lent, law, &Barrier::new(Level(level))?, period)
            }
        }
    }

    fn add_ruled<L: ClaimLaw, R: CapitalRule>(
        &mut self,
        lent: Lent,
        law: &L,
        rule: &R,
        period: &PeriodCase,
    ) -> Refusable {
        match period.penalty {
            PenaltyCase::AnyRuin => self.add_priced(lent, law, rule, &AnyRuin, period),
            PenaltyCase::Below(y) => self.add_priced(lent, law, rule, &Below::new(y)?, period),
            PenaltyCase::Scaled(m) => self.add_priced(lent, law, rule, &Scaled::new(m)?, period),
        }
    }

    fn add_priced<L: ClaimLaw, R: CapitalRule, P: Penalty>(
        &mut self,
        lent: Lent,
        law: &L,
        rule: &R,
        penalty: &P,
        period: &PeriodCase,
    ) -> Refusable {
        let allowance = Weight(period.allowance);
        let period = Period {
            law,
            rule,
            penalty,
            allowance,
        };
        self.advance_on(lent, &period)?;
        Ok(())
    }
}
