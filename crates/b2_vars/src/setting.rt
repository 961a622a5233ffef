// What expressions look at beside variables and a text.
use b2_base::{Part, Term};
use b2_dec::Mode;

/// What the expressions of a partition look at beside its variables and a text.
#[derive(Clone, Copy)]
pub struct Setting {
    /// How results become numbers.
    pub mode: Mode,
    /// The last code, 0 for none.
    pub last: u8,
    /// The partition.
    pub part: Part,
    /// Its terminal.
    pub term: Term,
}
