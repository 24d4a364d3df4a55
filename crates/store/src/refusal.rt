// Why a call is refused, and the number that stands for it.
ghost use Rattle.std.specs.Prelude.{◌≡◌};
ghost use Rattle.store.specs.Refused.{number_of};
ghost use Rattle.store.specs.declared.refusal.Refusal.TheVariants.{Spoiled};

use tree::SpoiledPage;

// The refusals in the order of their numbers: those of the input first, then those of the state.
#[derive(Clone, Copy, PartialEq, Eq)]
pub enum Refusal {
    KeyTooHigh,
    NoBand,
    WeightBeyond,
    NoTick,
    NoTime,
    UnknownCommand,
    OperandsMissing,
    TooSmall,
    HeadMisfits,
    BeforeLast,
    NotOpen,
    AllOpen,
    AllStarted,
    Spoiled,
    LacksPages,
    LacksRoot,
    NoBurst,
}

impl Refusal {
    // The number that a stream, a register block and a call for C say.
    pub fn number(self) -> u8
        ensures { result ≡ number_of self }
    {
        match self {
            Refusal::KeyTooHigh => 1,
            Refusal::NoBand => 2,
            Refusal::WeightBeyond => 3,
            Refusal::NoTick => 4,
            Refusal::NoTime => 5,
            Refusal::UnknownCommand => 6,
            Refusal::OperandsMissing => 7,
            Refusal::TooSmall => 8,
            Refusal::HeadMisfits => 20,
            Refusal::BeforeLast => 21,
            Refusal::NotOpen => 22,
            Refusal::AllOpen => 24,
            Refusal::AllStarted => 25,
            Refusal::Spoiled => 26,
            Refusal::LacksPages => 27,
            Refusal::LacksRoot => 28,
            Refusal::NoBurst => 31,
        }
    }
}

// A page that is spoiled refuses the call that met it.
impl From<SpoiledPage> for Refusal {
    ghost from_gives = { λ _ refusal. refusal ≡ Spoiled };

    fn from(_page: SpoiledPage) -> Refusal {
        Refusal::Spoiled
    }
}
