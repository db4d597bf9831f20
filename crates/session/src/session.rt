use crate::book::Book;
use crate::desk::Desk;
use crate::entry::Entry;
use crate::terms::Terms;
use feed::Reader;
use roll::Roll;

pub mod records;

// What a step answers: it took what stood next in the feed, or the feed has ended. An Option of nothing would say less.
#[derive(Clone, Copy)]
pub enum Progress {
    Stepped,
    Ended,
}

// A feed, what its records work on, and the log of what they are answered with.
#[derive(Drop)]
pub struct Session<'a> {
    reader: Reader<'a>,
    book: Book<'a>,
    terms: Terms,
    desk: Desk<'a>,
    log: Roll<'a, Entry>,
}
