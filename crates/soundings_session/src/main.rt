// Takes a feed from standard input, steps a session over it, and writes what it tells.
#![tactic(auto)]

ghost use Rattle.std.specs.Prelude.{◌≡◌, ◌≤◌, [], ◌++◌, length, IfOk, string_bytes, OnOk};
ghost use Rattle.run.specs.History.{LeadTo};
ghost use Rattle.session.specs.Views.{state_of, view_of};
ghost use Rattle.soundings_session.specs.Transcript.{line_of, lines_of, Tells, Transcript};

use feed::take_feed;
use report::{answer_line, end_line, refusal_line};
use run::NIL;
use session::{Cause, Entry, Fault, Progress, Session, SessionFault};
use std::alloc::{AllocError, Global};
use std::io;
use units::Weight;

#[cfg(test)]
mod tests;

const SLOTS: usize = 4096;

const PAIRS: usize = 8192;

fn line(heap: Global, entry: Entry) -> Result<String, AllocError>
    ensures { IfOk result (λ text. string_bytes text ≡ line_of entry) }
{
    match entry {
        Entry::Answer(told) => answer_line(heap, told.level, told.answer),
        Entry::Fault(told) => refusal_line(heap, u16::from(told.cause), told.offset),
    }
}

fn add_lines(heap: Global, entries: &[Entry], text: &mut String) -> Result<(), AllocError>
    ensures { OnOk result (string_bytes text.new ≡ string_bytes text.old ++ lines_of entries.now) }
{
    for entry in entries {
        let more = line(heap, *entry)?;
        text.push_str(more.as_str())?;
    }
    Ok(())
}

// Steps the session to the end of its feed. A log that is emptied after each step has room for what the next one tells.
fn tell(heap: Global, session: &mut Session<'_>) -> Result<String, AllocError>
    requires fresh { LeadTo [] (state_of session.old).held }
    requires empty { (view_of session.old).log.filled ≡ 0 }
    requires room { 1 ≤ length (view_of session.old).log.slots }
    ensures { IfOk result (λ text. Tells (view_of session.old) [] (string_bytes text)) }
{
    let mut text = String::new(heap);
    loop {
        match session.step() {
            Ok(Progress::Stepped) => {
                add_lines(heap, session.entries(), &mut text)?;
                session.empty_log();
            }
            Ok(Progress::Ended) => {
                let end = end_line(heap, session.whole())?;
                text.push_str(end.as_str())?;
                return Ok(text);
            }
            Err(_) => unreachable!(),
        }
    }
}

// All that the program writes of a feed.
fn transcript(heap: Global, feed: &[u8]) -> Result<String, AllocError>
    ensures { IfOk result (λ text. Transcript feed.now (string_bytes text)) }
{
    let mut weights = vec![in heap; Weight(0); SLOTS]?;
    let mut board = vec![in heap; NIL; PAIRS]?;
    let mut spare = vec![in heap; NIL; PAIRS]?;
    let cause = Cause::Session(SessionFault::LogFull);
    let mut log = [Entry::Fault(Fault { cause, offset: 0 })];
    let mut session = Session::new(
        feed,
        weights.as_mut_slice(),
        board.as_mut_slice(),
        spare.as_mut_slice(),
        &mut log,
    );
    tell(heap, &mut session)
}

fn main(rt: HostRuntime) -> io::Result<()> {
    let heap = rt.alloc();
    let bytes = take_feed(heap, rt.stdin())?;
    rt.print(transcript(heap, bytes.as_slice())?)
}
