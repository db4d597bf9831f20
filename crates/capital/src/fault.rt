ghost use Rattle.std.specs.Prelude.{◌≡◌};
ghost use Rattle.capital.specs.Fault.{fault_number};

#[derive(Clone, Copy, PartialEq, Eq, Debug)]
pub enum CapitalFault {
    FloorRange = 401,
    BarrierRange = 402,
    DeficitRange = 403,
    ScaleRange = 404,
}

// For this enum alone: one `From` of `u16` for all layers' faults can't be written outside std.
impl From<CapitalFault> for u16 {
    ghost from_gives = { λ fault number. number ≡ fault_number fault };

    fn from(fault: CapitalFault) -> u16 {
        fault as u16
    }
}
