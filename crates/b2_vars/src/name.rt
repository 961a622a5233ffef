// The names of variables.
ghost use Rattle.std.specs.Prelude.{◌≡◌, ◌≤◌, true};
ghost use Rattle.b2_base.specs.Lexical.{is_letter};
ghost use Rattle.b2_vars.specs.Names.{is_legal_name, scalar_named};

use b2_base::lexical::{is_digit, is_letter};

/// The name of a variable: a letter, at most one digit after it, and whether its values are bytes and whether it is an
/// array. Names that differ in any of these are different variables.
#[derive(Clone, Copy, PartialEq, Eq)]
pub struct Var {
    pub letter: u8,
    pub digit: Option<u8>,
    pub alpha: bool,
    pub array: bool,
}

impl Var {
    /// Whether the letter is from A to Z and the digit, if there is one, from 0 to 9. Every call that takes a name wants
    /// this.
    pub fn is_legal(self) -> bool
        ensures { result ≡ is_legal_name self }
    {
        is_letter(self.letter)
            && match self.digit {
                Some(digit) => is_digit(digit),
                None => true,
            }
    }
}

/// The numeric scalar of a letter and of a digit counted from 1, 0 where it has none.
#[tactic(auto, using(crate::proofs::NameNumbers::scalar_legal))]
pub fn scalar_named(letter: u8, digit: u8) -> Var
    requires letter { is_letter letter ≡ true }
    requires digit { digit ≤ 10 }
    ensures named { result ≡ scalar_named letter digit }
    ensures legal { is_legal_name result ≡ true }
{
    Var {
        letter,
        digit: if digit == 0 { None } else { Some(digit + 47) },
        alpha: false,
        array: false,
    }
}
