ghost use Rattle.std.specs.Prelude.{◌≡◌};
ghost use Rattle.session.specs.Fault.{cause_number};
ghost use Rattle.session.specs.declared.cause.Cause.TheVariants.{Roll, Feed, Law, Capital, Run, Session};

use crate::fault::SessionFault;
use capital::CapitalFault;
use claims::LawFault;
use feed::FeedFault;
use roll::RollFault;
use run::RunFault;

// Why a record is refused: a fault of the layer that found it.
#[derive(Clone, Copy)]
pub enum Cause {
    Roll(RollFault),
    Feed(FeedFault),
    Law(LawFault),
    Capital(CapitalFault),
    Run(RunFault),
    Session(SessionFault),
}

impl From<Cause> for u16 {
    ghost from_gives = { λ cause number. number ≡ cause_number cause };

    fn from(cause: Cause) -> u16 {
        match cause {
            Cause::Roll(fault) => fault.into(),
            Cause::Feed(fault) => fault.into(),
            Cause::Law(fault) => fault.into(),
            Cause::Capital(fault) => fault.into(),
            Cause::Run(fault) => fault.into(),
            Cause::Session(fault) => fault.into(),
        }
    }
}

// One for each layer: `?` asks for an impl by the fault's type.
impl From<RollFault> for Cause {
    ghost from_gives = { λ fault cause. cause ≡ Roll fault };

    fn from(fault: RollFault) -> Cause {
        Cause::Roll(fault)
    }
}

impl From<FeedFault> for Cause {
    ghost from_gives = { λ fault cause. cause ≡ Feed fault };

    fn from(fault: FeedFault) -> Cause {
        Cause::Feed(fault)
    }
}

impl From<LawFault> for Cause {
    ghost from_gives = { λ fault cause. cause ≡ Law fault };

    fn from(fault: LawFault) -> Cause {
        Cause::Law(fault)
    }
}

impl From<CapitalFault> for Cause {
    ghost from_gives = { λ fault cause. cause ≡ Capital fault };

    fn from(fault: CapitalFault) -> Cause {
        Cause::Capital(fault)
    }
}

impl From<RunFault> for Cause {
    ghost from_gives = { λ fault cause. cause ≡ Run fault };

    fn from(fault: RunFault) -> Cause {
        Cause::Run(fault)
    }
}

impl From<SessionFault> for Cause {
    ghost from_gives = { λ fault cause. cause ≡ Session fault };

    fn from(fault: SessionFault) -> Cause {
        Cause::Session(fault)
    }
}
