// Sessions, tried step by step.
use super::{BLANK, Refused, Told};
use crate::verdict::Verdicts;
use session::{Progress, Session, SessionFault};
use std::io;
use units::Weight;

// Nothing, once the feed has ended.
fn step(session: &mut Session<'_>) -> Result<Option<()>, SessionFault> {
    match session.step()? {
        Progress::Stepped => Ok(Some(())),
        Progress::Ended => Ok(None),
    }
}

// Whether the log holds one entry, and so many whole records were read.
fn stands(session: &Session<'_>, told: Told, whole: usize) -> bool {
    match session.entries() {
        [entry] => Told::from(*entry) == told && session.whole() == whole,
        _ => false,
    }
}

// A log of one slot, full before a byte that is no kind.
fn full_log(verdicts: &mut Verdicts<'_>) -> io::Result<()> {
    let mut log = [BLANK];
    let mut session = Session::new(b"u\x00\x00x", &mut [], &mut [], &mut [], &mut log);
    let trial = "session step into a log of 1 slot";
    verdicts.compare_found(trial, step(&mut session), Ok(Some(())))?;
    let right = stands(&session, Refused(503, 0), 1);
    verdicts.tell("session log that is full now", right)?;
    for _ in 0..2 {
        let trial = "session step with a full log before an unknown kind";
        verdicts.compare_found(trial, step(&mut session), Err(602))?;
    }
    let right = stands(&session, Refused(503, 0), 1);
    verdicts.tell("session unaltered after refused steps", right)?;
    session.empty_log();
    let trial = "session step with the log emptied";
    verdicts.compare_found(trial, step(&mut session), Ok(Some(())))?;
    let right = stands(&session, Refused(201, 3), 1);
    verdicts.tell("session log with the unknown kind", right)?;
    let trial = "session step with a full log after 201";
    verdicts.compare_found(trial, step(&mut session), Ok(None))?;
    let right = stands(&session, Refused(201, 3), 1);
    verdicts.tell("session unaltered after its end", right)
}

// A log that is full before a record that would log nothing, and at the last byte.
fn full_log_at_end(verdicts: &mut Verdicts<'_>) -> io::Result<()> {
    let mut log = [BLANK];
    let mut session = Session::new(b"tnu\x00\x00", &mut [], &mut [], &mut [], &mut log);
    let _ = step(&mut session);
    let trial = "session step with a full log before n";
    verdicts.compare_found(trial, step(&mut session), Err(602))?;
    let right = stands(&session, Refused(601, 0), 1);
    verdicts.tell("session n not read", right)?;
    session.empty_log();
    let _ = step(&mut session);
    let _ = step(&mut session);
    let right = stands(&session, Refused(503, 2), 3);
    verdicts.tell("session log full at the last byte", right)?;
    let trial = "session step with a full log at the end";
    verdicts.compare_found(trial, step(&mut session), Ok(None))
}

fn no_log(verdicts: &mut Verdicts<'_>) -> io::Result<()> {
    let mut session = Session::new(b"n", &mut [], &mut [], &mut [], &mut []);
    let trial = "session step with a log of no slot";
    verdicts.compare_found(trial, step(&mut session), Err(602))?;
    verdicts.tell("session nothing read with no log", session.whole() == 0)?;
    let mut session = Session::new(b"", &mut [], &mut [], &mut [], &mut []);
    let trial = "session step with no log and no feed";
    verdicts.compare_found(trial, step(&mut session), Ok(None))
}

pub fn full_logs(verdicts: &mut Verdicts<'_>) -> io::Result<()> {
    full_log(verdicts)?;
    full_log_at_end(verdicts)?;
    no_log(verdicts)
}

// Takes a single-size law on marked slots.
fn single_size_on(weights: &mut [Weight]) -> Result<Option<()>, SessionFault> {
    let mut log = [BLANK];
    let feed = b"s\x00\x02\x20\x00\x00\x00";
    step(&mut Session::new(feed, weights, &mut [], &mut [], &mut log))
}

pub fn slots_left_alone(verdicts: &mut Verdicts<'_>) -> io::Result<()> {
    let mut weights = [Weight(7), Weight(8), Weight(9)];
    let answer = single_size_on(&mut weights);
    verdicts.compare_found("session step of s", answer, Ok(Some(())))?;
    let stays = weights == [Weight(7), Weight(8), Weight(9)];
    verdicts.tell("session slots left alone by s", stays)
}
