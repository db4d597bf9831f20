// Judges each trial, and tells it in a line.
use std::alloc::Global;
use std::{fmt, io};

// How many trials there were, how many of them went wrong, and where their lines go.
#[derive(Drop)]
pub struct Verdicts<'a> {
    rt: &'a HostRuntime,
    tried: u32,
    wrong: u32,
}

impl<'a> Verdicts<'a> {
    pub fn new(rt: &'a HostRuntime) -> Verdicts<'a> {
        Verdicts {
            rt,
            tried: 0,
            wrong: 0,
        }
    }

    pub fn heap(&self) -> Global {
        self.rt.alloc()
    }

    // The line of a trial that is right or not.
    pub fn tell(&mut self, trial: impl fmt::Display + Drop, right: bool) -> io::Result<()> {
        let rt = self.rt;
        self.tried = self.tried.saturating_add(1);
        if right {
            return println!(rt; "{trial}: ok");
        }
        self.wrong = self.wrong.saturating_add(1);
        println!(rt; "{trial}: WRONG")
    }

    // The line of a call that is to find something, or nothing, or to refuse by a number.
    pub fn compare_found<T: Drop, F>(
        &mut self,
        trial: impl fmt::Display + Drop,
        answer: Result<Option<T>, F>,
        expected: Result<Option<()>, u16>,
    ) -> io::Result<()>
    where
        u16: From<F>,
    {
        let answer = answer.map(|found| found.map(|_| ())).map_err(u16::from);
        let right = answer == expected;
        match answer {
            Ok(Some(())) => self.tell(format_args!("{trial}: taken"), right),
            Ok(None) => self.tell(format_args!("{trial}: nothing there"), right),
            Err(number) => self.tell(format_args!("{trial}: refused by {number}"), right),
        }
    }

    // The line of a call that is to be taken, or refused by a number.
    // The numbers are promised, so the faults' names alone would try less.
    pub fn compare<T: Drop, F>(
        &mut self,
        trial: impl fmt::Display + Drop,
        answer: Result<T, F>,
        expected: Result<(), u16>,
    ) -> io::Result<()>
    where
        u16: From<F>,
    {
        self.compare_found(trial, answer.map(Some), expected.map(Some))
    }

    // The lines of a call that is given one number after another.
    pub(crate) fn compare_each<N: fmt::Display + Copy, T: Drop, F, C: Fn(N) -> Result<T, F>>(
        &mut self,
        trial: &str,
        numbers: &[(N, Result<(), u16>)],
        call: &C,
    ) -> io::Result<()>
    where
        u16: From<F>,
        requires { C.IsAlwaysCallable call.now }
    {
        for (number, expected) in numbers {
            self.compare(format_args!("{trial} {number}"), call(*number), *expected)?;
        }
        Ok(())
    }

    pub fn sum_up(&self) -> io::Result<()> {
        let rt = self.rt;
        let tried = self.tried;
        let wrong = self.wrong;
        println!(rt; "trials: {tried} tried, {wrong} wrong")
    }
}
