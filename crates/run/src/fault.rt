ghost use Rattle.std.specs.Prelude.{◌≡◌};
ghost use Rattle.run.specs.Fault.{fault_number};

// Why a call was refused, under the number that a program tells.
#[derive(Clone, Copy, PartialEq, Eq, Debug)]
pub enum RunFault {
    LengthRange = 501,
    ListShort = 502,
    Unopened = 503,
    AllowanceRange = 504,
    NoneKnown = 505,
    LevelUnknown = 506,
    PeriodsFull = 507,
}

// For this enum alone: one `From` of `u16` for all layers' faults can't be written outside std.
impl From<RunFault> for u16 {
    ghost from_gives = { λ fault number. number ≡ fault_number fault };

    fn from(fault: RunFault) -> u16 {
        fault as u16
    }
}
