// What a row gives, and why a row gives nothing.
use b2_base::{Fault, NoMemory};
use std::alloc::{AllocError, AllocFailed};

/// Why a row gives nothing.
#[derive(Drop)]
pub enum Unanswered {
    /// There is no call of that name.
    NoSuchCall,
    /// A cell doesn't say what the call takes there.
    Misread,
    NoMemory,
}

/// What a row gives, as text.
pub type Answer = Result<String, Unanswered>;

impl From<AllocError> for Unanswered {
    fn from(_: AllocError) -> Unanswered {
        Unanswered::NoMemory
    }
}

impl<T: Drop> From<AllocFailed<T>> for Unanswered {
    fn from(_: AllocFailed<T>) -> Unanswered {
        Unanswered::NoMemory
    }
}

impl From<NoMemory> for Unanswered {
    fn from(_: NoMemory) -> Unanswered {
        Unanswered::NoMemory
    }
}

impl From<Fault> for Unanswered {
    fn from(_: Fault) -> Unanswered {
        Unanswered::Misread
    }
}
