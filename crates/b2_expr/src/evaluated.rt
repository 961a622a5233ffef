// What evaluating along a text gives, in words: a number or a code, and where it ends.
ghost use Rattle.std.specs.Prelude.{◌≡◌, ◌≤◌, ◌-◌, ◌==◌, nat_le, true, Ok, Err, length};
ghost use Rattle.b2_atom.specs.declared.rows.TheConstants as row;
ghost use Rattle.b2_rows.specs.Rows.{after_phrase};
ghost use Rattle.b2_expr.specs.Reads.{last, truth_word};

use b2_base::Code;
use b2_base::lexical::rest_after;
use b2_dec::{Dec, NumberOrCode};

/// The number of an expression, or the code in its place, and how many bytes are left after it: with no code its end, which is
/// the same for every text that reaches to the end of the unit.
#[derive(Clone, Copy)]
pub struct Evaluated {
    pub number: NumberOrCode,
    pub left: usize,
}

impl Evaluated {
    /// A number, with as many bytes left after it.
    #[inline(always)]
    pub fn with(number: Dec, left: usize) -> Evaluated
        ensures { result ≡ record { number = Ok number; left = left } }
    {
        Evaluated {
            number: NumberOrCode::number(number),
            left,
        }
    }

    /// A number or a code, with no bytes left.
    #[inline(always)]
    pub fn at_end(number: NumberOrCode) -> Evaluated
        ensures { result ≡ record { number = number; left = 0 } }
    {
        Evaluated { number, left: 0 }
    }
}

/// Whether a condition holds, or the code in its place, and how many bytes are left after it: with a code none.
#[derive(Clone, Copy)]
pub struct Judged {
    /// 0 where it doesn't hold, 1 where it does, and else a code and 2.
    pub word: u64,
    pub left: usize,
}

impl Judged {
    /// A truth, with as many bytes left after it.
    #[inline(always)]
    pub fn with(holds: bool, left: usize) -> Judged
        ensures { result ≡ record { word = truth_word (Ok holds); left = left } }
    {
        Judged {
            word: u64::from(holds),
            left,
        }
    }

    /// A code.
    #[inline(always)]
    pub fn coded(code: Code) -> Judged
        ensures value { result ≡ record { word = truth_word (Err code); left = 0 } }
        ensures least { 3 ≤ result.word }
        ensures most { result.word ≤ 101 }
    {
        Judged {
            word: 2 + u64::from(code.number()),
            left: 0,
        }
    }

    /// What stands for a condition that isn't plain.
    #[inline(always)]
    pub fn not_plain() -> Judged
        ensures { nat_le 2 result.word ≡ true }
    {
        Judged { word: 2, left: 0 }
    }

    /// Whether it is a code.
    #[inline(always)]
    pub fn is_code(self) -> bool
        ensures { result ≡ nat_le 2 self.word }
    {
        self.word >= 2
    }

    /// Whether the condition holds.
    #[inline(always)]
    pub fn holds(self) -> bool
        ensures { result ≡ (self.word == 1) }
    {
        self.word == 1
    }

    /// The code in its place.
    #[inline(always)]
    pub fn get_code(self) -> Code
        requires least { 3 ≤ self.word }
        requires most { self.word ≤ 101 }
        ensures { result ≡ self.word - 2 }
    {
        Code::known((self.word - 2) as u8)
    }
}

/// The last bytes of a text, all where there are no more.
#[inline(always)]
pub fn last_bytes(text: &[u8], count: usize) -> &[u8]
    ensures { result.now ≡ last count text.now }
{
    rest_after(text, text.len().saturating_sub(count))
}

/// What stands after the numeric expression at a text, by how many bytes are left after it.
#[inline(always)]
#[tactic(auto, using(crate::proofs::Tails::tail_by))]
pub fn after_sum(text: &[u8], left: usize) -> &[u8]
    requires { left ≡ length (after_phrase row.SUM text.now) }
    ensures { result.now ≡ after_phrase row.SUM text.now }
{
    last_bytes(text, left)
}

/// What stands after the condition at a text, by how many bytes are left after it.
#[inline(always)]
#[tactic(auto, using(crate::proofs::Tails::tail_by))]
pub fn after_condition(text: &[u8], left: usize) -> &[u8]
    requires { left ≡ length (after_phrase row.CONDITION text.now) }
    ensures { result.now ≡ after_phrase row.CONDITION text.now }
{
    last_bytes(text, left)
}
