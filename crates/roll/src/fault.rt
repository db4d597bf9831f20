ghost use Rattle.std.specs.Prelude.{◌≡◌};
ghost use Rattle.roll.specs.Fault.{fault_number};

#[derive(Clone, Copy, PartialEq, Eq, Debug)]
pub enum RollFault {
    Full = 101,
    NotFilled = 102,
}

// For this enum alone: one `From` of `u16` for all layers' faults can't be written outside std.
impl From<RollFault> for u16 {
    ghost from_gives = { λ fault number. number ≡ fault_number fault };

    fn from(fault: RollFault) -> u16 {
        fault as u16
    }
}
