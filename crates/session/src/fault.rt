ghost use Rattle.std.specs.Prelude.{◌≡◌};
ghost use Rattle.session.specs.Fault.{fault_number};

#[derive(Clone, Copy, PartialEq, Eq, Debug)]
pub enum SessionFault {
    NotTaken = 601,
    LogFull = 602,
}

// For this enum alone: one `From` of `u16` for all layers' faults can't be written outside std.
impl From<SessionFault> for u16 {
    ghost from_gives = { λ fault number. number ≡ fault_number fault };

    fn from(fault: SessionFault) -> u16 {
        fault as u16
    }
}
