// Sessions, tried by feeds: what is told, entry by entry, and how many whole records there were.
use crate::engine::NIL;
use crate::verdict::Verdicts;
use feed::Record::{Advance, Allowance, AnyRuin, Ask, Claim, EndLaw, Open, ScrapLaw, SingleSize};
use feed::{Record, write};
use run::Pair;
use session::{Answered, Cause, Entry, Fault, Progress, Session, SessionFault};
use std::alloc::{AllocError, Global};
use std::{fmt, io};
use units::{Amount, Level, ONE, Weight};

mod kept;
mod refused;
mod steps;

const HALF: Weight = Weight(1 << 29);

const ABOVE_ONE: Weight = Weight((1 << 30) + 1);

const TOO_MUCH: Weight = Weight((1 << 20) + 1);

const NO_LAW: &[Record] = &[];

const PART_LAW: &[Record] = &[Claim(Amount(0), HALF)];

const LAW_A: &[Record] = &[Claim(Amount(0), HALF), Claim(Amount(2), HALF), EndLaw(2)];

const OPEN_A: &[Record] = &[
    Claim(Amount(0), HALF),
    Claim(Amount(2), HALF),
    EndLaw(2),
    Open(4),
];

// What log slots hold before anything is logged.
const BLANK: Entry = Entry::Fault(Fault {
    cause: Cause::Session(SessionFault::LogFull),
    offset: 0,
});

// An entry of the log by plain numbers, in the order of the line that tells it: a fault is expected by its number.
#[derive(Clone, Copy, PartialEq, Eq)]
enum Told {
    // level, lower, upper, periods, dropped
    Bounds(u16, u32, u32, u16, u32),
    // number, offset
    Refused(u16, usize),
}

use Told::{Bounds, Refused};

impl From<Entry> for Told {
    fn from(entry: Entry) -> Told {
        match entry {
            Entry::Answer(Answered { level, answer }) => Bounds(
                level.0,
                answer.pair.lower,
                answer.pair.upper,
                answer.periods.0,
                answer.dropped.0,
            ),
            Entry::Fault(Fault { cause, offset }) => Refused(u16::from(cause), offset),
        }
    }
}

impl fmt::Display for Told {
    fn fmt<W: fmt::Write>(&self, f: &mut fmt::Formatter<W>) -> fmt::Result {
        match self {
            Bounds(level, lower, upper, periods, dropped) => {
                write!(f, "u {level} {lower} {upper} {periods} {dropped}")
            }
            Refused(number, offset) => write!(f, "no {number} {offset}"),
        }
    }
}

// What a session told from the first record to the last, and the count of whole records if it ended then.
#[derive(Drop)]
struct Story {
    told: Vec<Told>,
    end: Option<usize>,
}

impl fmt::Display for Story {
    fn fmt<W: fmt::Write>(&self, f: &mut fmt::Formatter<W>) -> fmt::Result {
        for told in self.told.iter() {
            write!(f, " {told},")?;
        }
        match self.end {
            Some(whole) => write!(f, " end {whole}"),
            None => write!(f, " no end"),
        }
    }
}

// How long the lists are that a session is lent.
#[derive(Clone, Copy)]
struct Room {
    weights: usize,
    pairs: usize,
    log: usize,
}

const ROOM: Room = Room {
    weights: 16,
    pairs: 8,
    log: 2,
};

// What a session is lent.
#[derive(Drop)]
struct Lists {
    weights: Vec<Weight>,
    board: Vec<Pair>,
    spare: Vec<Pair>,
    log: Vec<Entry>,
}

impl Lists {
    fn session<'a>(&'a mut self, feed: &'a [u8]) -> Session<'a> {
        Session::new(
            feed,
            self.weights.as_mut_slice(),
            self.board.as_mut_slice(),
            self.spare.as_mut_slice(),
            self.log.as_mut_slice(),
        )
    }
}

impl Room {
    fn lists(self, heap: Global) -> Result<Lists, AllocError> {
        Ok(Lists {
            weights: vec![in heap; Weight(0); self.weights]?,
            board: vec![in heap; NIL; self.pairs]?,
            spare: vec![in heap; NIL; self.pairs]?,
            log: vec![in heap; BLANK; self.log]?,
        })
    }

    // The line of a feed: all that was told, the count of whole records, and the verdict.
    fn try_feed(
        self,
        verdicts: &mut Verdicts<'_>,
        trial: &str,
        feed: &[u8],
        told: &[Told],
        whole: usize,
    ) -> io::Result<()> {
        let heap = verdicts.heap();
        let mut lists = self.lists(heap)?;
        let mut session = lists.session(feed);
        let story = follow(heap, &mut session, feed.len().saturating_add(2))?;
        let right = story.told.as_slice() == told && story.end == Some(whole);
        verdicts.tell(format_args!("session {trial}:{story}"), right)
    }

    // The same of records, all of them whole.
    fn try_records(
        self,
        verdicts: &mut Verdicts<'_>,
        trial: &str,
        given: &[Record],
        then: &[Record],
        told: &[Told],
    ) -> io::Result<()> {
        let mut bytes = Vec::new(verdicts.heap());
        for record in given.iter().chain(then) {
            put(&mut bytes, *record)?;
        }
        let whole = given.len().saturating_add(then.len());
        self.try_feed(verdicts, trial, bytes.as_slice(), told, whole)
    }
}

// Steps so many times, and empties the log after each step. A feed of n bytes has ended after n steps, and further
// steps must tell so too.
fn follow(heap: Global, session: &mut Session<'_>, steps: usize) -> Result<Story, AllocError> {
    let mut told = Vec::new(heap);
    let mut end = None;
    for _ in 0..steps {
        end = match session.step() {
            Ok(Progress::Ended) => Some(session.whole()),
            Ok(Progress::Stepped) | Err(_) => None,
        };
        told.extend(session.entries().iter().map(|entry| Told::from(*entry)))?;
        session.empty_log();
    }
    Ok(Story { told, end })
}

fn put(bytes: &mut Vec<u8>, record: Record) -> Result<(), AllocError> {
    let mut buffer = [0u8; 7];
    match write(record, &mut buffer) {
        Ok(count) => bytes.extend(buffer.iter().take(count)),
        Err(_) => Ok(()),
    }
}

// Records that are given and that follow, and what is told of them.
type Case = (
    &'static str,
    &'static [Record],
    &'static [Record],
    &'static [Told],
);

fn try_all(verdicts: &mut Verdicts<'_>, cases: &[Case]) -> io::Result<()> {
    for (trial, given, then, told) in cases {
        ROOM.try_records(verdicts, trial, given, then, told)?;
    }
    Ok(())
}

fn sample(verdicts: &mut Verdicts<'_>) -> io::Result<()> {
    ROOM.try_records(
        verdicts,
        "sample",
        OPEN_A,
        &[Advance, Advance, Ask(Level(0)), Ask(Level(2))],
        &[Bounds(0, 805_306_368, 805_306_368, 2, 0), Refused(506, 25)],
    )?;
    ROOM.try_feed(verdicts, "empty feed", b"", &[], 0)
}

fn most_slots(verdicts: &mut Verdicts<'_>) -> io::Result<()> {
    let given = [Claim(Amount(0), HALF), Claim(Amount(4095), HALF)];
    let room = Room {
        weights: 4096,
        pairs: 4,
        log: 1,
    };
    room.try_records(
        verdicts,
        "w of amount 4095 on 4096 slots",
        &given,
        &[EndLaw(2), Open(4), Advance, Ask(Level(0))],
        &[Bounds(0, 536_870_912, 536_870_912, 1, 0)],
    )?;
    let room = Room {
        weights: 4095,
        ..room
    };
    room.try_records(
        verdicts,
        "w of amount 4095 on 4095 slots",
        &given,
        &[],
        &[Refused(101, 7)],
    )
}

pub fn all(verdicts: &mut Verdicts<'_>) -> io::Result<()> {
    sample(verdicts)?;
    refused::all(verdicts)?;
    kept::all(verdicts)?;
    steps::slots_left_alone(verdicts)?;
    most_slots(verdicts)
}
