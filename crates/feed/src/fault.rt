ghost use Rattle.std.specs.Prelude.{◌≡◌};
ghost use Rattle.feed.specs.Faults.{fault_number};

// Why a feed is not read on, or a record not written.
#[derive(Clone, Copy, PartialEq, Eq, Debug)]
pub enum FeedFault {
    UnknownKind = 201,
    CutShort = 202,
    TooLong = 203,
    BufferShort = 204,
}

// For this enum alone: one `From` of `u16` for all layers' faults can't be written outside std.
impl From<FeedFault> for u16 {
    ghost from_gives = { λ fault number. number ≡ fault_number fault };

    fn from(fault: FeedFault) -> u16 {
        fault as u16
    }
}
