// Variables by their names as they are written.
ghost use Rattle.std.specs.Prelude.{◌≡◌, ◌≤◌, Bool, true, false, length, MatchResult, IfOk, Ok, Err};
ghost use Rattle.b2_base.specs.Lexical.{is_letter};
ghost use Rattle.b2_vars.specs.Names.{is_legal_name};
ghost use Rattle.b2_atom.specs.Leaves.{leaf_width};
ghost use Rattle.b2_atom.specs.declared.words.Origin.TheVariants.{Atoms};
ghost use Rattle.b2_rows.specs.Leaves.{leaf_bytes};
ghost use Rattle.b2_rows.specs.Rows.{is_phrase};
ghost use Rattle.b2_rows.specs.Values.{variable_name};
ghost use Rattle.b2_expr.specs.Named.{bytes_there, counted_digit, element_there, is_alpha_kind, name_leaf, name_row, number_there, cell_seen, plain_array, plain_width, variable_of};

use b2_base::Code;
use b2_base::lexical::{at, is_digit};
use b2_dec::{Dec, NumberOrCode};
use b2_rows::{Name, alpha_name, numeric_name};
use b2_vars::{Var, Vars};

/// A value of a variable: whether its name has `@`, the variable, and the row and the column, 0 where there is none.
#[derive(Clone, Copy)]
pub struct Element {
    pub global: bool,
    pub var: Var,
    pub row: u16,
    pub column: u16,
}

/// A row and a column, each 0 where there is none.
#[derive(Clone, Copy)]
pub struct Subscripts {
    pub row: u16,
    pub column: u16,
}

/// The kinds of names with subscripts or none: of numbers and of alpha values, as operands and as receivers.
#[derive(Clone, Copy)]
pub enum NameKind {
    Number,
    Alpha,
    NumberReceiver,
    AlphaReceiver,
}

impl NameKind {
    /// Whether the name has a `$`.
    pub fn is_alpha(self) -> bool
        ensures { result ≡ is_alpha_kind self }
    {
        match self {
            NameKind::Alpha | NameKind::AlphaReceiver => true,
            NameKind::Number | NameKind::NumberReceiver => false,
        }
    }
}

/// An element, and the variables among which it is looked for.
#[derive(Drop)]
pub struct Located<'a> {
    pub vars: &'a Vars,
    pub element: Element,
}

/// The variable of a name, where it is known whether subscripts follow.
pub fn variable_of(name: Name, array: bool) -> Var
    ensures { result ≡ variable_of name array }
{
    Var {
        letter: name.letter,
        digit: name.digit,
        alpha: name.alpha,
        array,
    }
}

/// A name of a kind, and how many bytes it takes.
#[tactic(auto, using(crate::proofs::Names::alpha_there, crate::proofs::Names::numeric_there, crate::proofs::Names::alpha_leaf_is, crate::proofs::Names::number_leaf_is, crate::proofs::Names::legal_name))]
#[inline(always)]
pub fn name_at(kind: NameKind, text: &[u8]) -> (Name, usize)
    requires phrase { is_phrase (name_row kind) text.now ≡ true }
    ensures name { result.0 ≡ variable_name (is_alpha_kind kind) (leaf_bytes (name_leaf kind) text.now) }
    ensures legal { (array : Bool) → is_legal_name (variable_of result.0 array) ≡ true }
    ensures width { result.1 ≡ leaf_width Atoms (name_leaf kind) text.now }
{
    if kind.is_alpha() {
        alpha_name(text)
    } else {
        numeric_name(text)
    }
}

/// The digit of a plain name counted from 1, 0 where a byte is none.
#[inline(always)]
pub fn counted_digit(byte: u8) -> u8
    ensures digit { result ≡ counted_digit byte }
    ensures small { result ≤ 10 }
{
    if is_digit(byte) { byte - 47 } else { 0 }
}

/// How many bytes a plain name takes.
#[inline(always)]
pub fn plain_width(text: &[u8]) -> usize
    ensures { result ≡ plain_width text.now }
{
    if is_digit(at(text, 1)) { 2 } else { 1 }
}

/// The numeric array of a plain name, by its first two bytes.
#[tactic(auto, using(crate::proofs::PlainElements::plain_legal))]
#[inline(always)]
fn plain_array(letter: u8, byte: u8) -> Var
    requires letter { is_letter letter ≡ true }
    ensures named { result ≡ plain_array letter byte }
    ensures legal { is_legal_name result ≡ true }
{
    Var {
        letter,
        digit: if is_digit(byte) { Some(byte) } else { None },
        alpha: false,
        array: true,
    }
}

/// The number of an element of the array of a plain name, by its first two bytes: P59 and P57 as for any.
#[inline(always)]
pub fn element_number(vars: &Vars, letter: u8, byte: u8, row: u16, column: u16) -> NumberOrCode
    requires letter { is_letter letter ≡ true }
    ensures { result ≡ number_there (record { vars = vars.now; element = record { global = false; var = plain_array letter byte; row = row; column = column } }) }
{
    NumberOrCode::of(vars.number(plain_array(letter, byte), row, column))
}

impl<'a> Located<'a> {
    /// The number of a numeric element. P59 and P57 come exactly where the array isn't there or has no such element.
    pub fn number(&self) -> Result<Dec, Code>
        requires named { is_legal_name self.now.element.var ≡ true }
        requires number { self.now.element.var.alpha ≡ false }
        ensures { result ≡ number_there (cell_seen self.now) }
    {
        let element = self.element;
        self.vars.number(element.var, element.row, element.column)
    }

    /// A numeric element that is there, whose number isn't read. P59 and P57 come as for its number.
    pub fn reached(&self) -> Result<Element, Code>
        requires named { is_legal_name self.now.element.var ≡ true }
        ensures there { result ≡ element_there (cell_seen self.now) }
        ensures same { IfOk result (λ element. element ≡ self.now.element) }
    {
        let element = self.element;
        match self
            .vars
            .reach_value(element.var, element.row, element.column)
        {
            Ok(()) => Ok(element),
            Err(code) => Err(code),
        }
    }

    /// All bytes of an alpha element. P59 and P57 come as for a number.
    pub fn bytes(&self) -> Result<&'a [u8], Code>
        requires named { is_legal_name self.now.element.var ≡ true }
        requires alpha { self.now.element.var.alpha ≡ true }
        ensures value { MatchResult result (λ x. bytes_there (cell_seen self.now) ≡ Ok x.now) (λ code. bytes_there (cell_seen self.now) ≡ Err code) }
        ensures short { IfOk result (λ x. length x.now ≤ 124) }
    {
        let element = self.element;
        self.vars.alpha(element.var, element.row, element.column)
    }
}
