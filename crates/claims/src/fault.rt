ghost use Rattle.std.specs.Prelude.{◌≡◌};
ghost use Rattle.claims.specs.Fault.{fault_number};

#[derive(Clone, Copy, PartialEq, Eq, Debug)]
pub enum LawFault {
    ListLength = 301,
    SumAboveOne = 302,
    SumBelowOne = 303,
    AmountRange = 304,
    AmountOrder = 305,
    CountDiffers = 306,
    SizeRange = 307,
    WeightAboveOne = 308,
    LimitRange = 309,
}

// For this enum alone: one `From` of `u16` for all layers' faults can't be written outside std.
impl From<LawFault> for u16 {
    ghost from_gives = { λ fault number. number ≡ fault_number fault };

    fn from(fault: LawFault) -> u16 {
        fault as u16
    }
}
