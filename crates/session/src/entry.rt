use crate::cause::Cause;
use run::Answer;
use units::Level;

// The bounds of a level that was asked for.
#[derive(Clone, Copy)]
pub struct Answered {
    pub level: Level,
    pub answer: Answer,
}

// A refusal, and the offset of the record that was refused.
#[derive(Clone, Copy)]
pub struct Fault {
    pub cause: Cause,
    pub offset: usize,
}

// What a step tells. Not a Result: a refusal is told like an answer, and is no error of the log.
#[derive(Clone, Copy)]
pub enum Entry {
    Answer(Answered),
    Fault(Fault),
}
