// The numbers of kinds.
ghost use Rattle.std.specs.Prelude.{◌≡◌};
ghost use Rattle.semantic.specs.Rows.{kind_number, call_number, self_number};

use crate::{CallKind, IdentifierStatus, NONE};

impl From<IdentifierStatus> for u32 {
    ghost from_gives = { λ k n. n ≡ kind_number k };

    fn from(k: IdentifierStatus) -> u32 {
        match k {
            IdentifierStatus::Global => 1,
            IdentifierStatus::Local => 2,
            IdentifierStatus::LocallyDefinedFunction => 3,
            IdentifierStatus::LetVar => 4,
            IdentifierStatus::Captured => 5,
            IdentifierStatus::Free => 6,
            IdentifierStatus::HeapAllocated => 7,
        }
    }
}

impl From<CallKind> for u32 {
    ghost from_gives = { λ k n. n ≡ call_number k };

    fn from(k: CallKind) -> u32 {
        match k {
            CallKind::Normal => 1,
            CallKind::TailCall => 2,
            CallKind::SelfTailCall(_) => 3,
        }
    }
}

impl CallKind {
    // How many lambdas lie between the define and a call of itself.
    pub fn self_number(self) -> u32
        ensures { result ≡ self_number self }
    {
        match self {
            CallKind::SelfTailCall(depth) => depth,
            CallKind::Normal | CallKind::TailCall => NONE,
        }
    }
}
