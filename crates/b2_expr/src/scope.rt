// What expressions look at.
ghost use Rattle.std.specs.Prelude.{◌≡◌, MatchResult, Ok, Err};
ghost use Rattle.b2_expr.specs.Named.{variables_of};
ghost use Rattle.b2_expr.specs.Scope.{hidden_by, is_same_name, kept_number, same_digit, surroundings};

use b2_atom::words::{ERR, HASH_PART};
use b2_base::codes::X77_NO_PARTITION;
use b2_base::{Code, Part, Term};
use b2_dec::{Dec, Mode};
use b2_rows::Name;
use b2_text::Text;
use b2_vars::Vars;

/// What expressions look at.
#[derive(Drop)]
pub struct Env<'a> {
    /// The partition's own variables.
    pub own: &'a Vars,
    /// The `@` variables, None where there are none.
    pub globals: Option<&'a Vars>,
    /// The text whose functions are called.
    pub home: &'a Text,
    /// How results become numbers.
    pub mode: Mode,
    /// The last code, 0 for none.
    pub err: u8,
    /// The partition.
    pub part: Part,
    /// Its terminal.
    pub term: Term,
}

/// The parameter of a function that is called: its name and its value.
#[derive(Clone, Copy)]
pub struct Parameter {
    pub name: Name,
    pub value: Dec,
}

/// Where an expression stands.
#[derive(Drop)]
pub struct Scope<'a> {
    /// What it looks at.
    pub env: &'a Env<'a>,
    /// The parameter of the function in whose expression it is, which hides the variable of its name.
    pub parameter: Option<Parameter>,
    /// How many more calls of functions may open in it.
    pub room: u8,
}

/// Whether the digits of two names are one.
fn same_digit(a: Option<u8>, b: Option<u8>) -> bool
    ensures { result ≡ same_digit a b }
{
    match (a, b) {
        (None, None) => true,
        (Some(a), Some(b)) => a == b,
        _ => false,
    }
}

/// Whether two numeric names are one.
fn is_same_name(a: Name, b: Name) -> bool
    ensures { result ≡ is_same_name a b }
{
    a.letter == b.letter && same_digit(a.digit, b.digit) && a.global == b.global
}

/// The value of the parameter, where a name is its name.
pub fn hidden_by(parameter: Option<Parameter>, name: Name) -> Option<Dec>
    ensures { result ≡ hidden_by parameter name }
{
    match parameter {
        Some(parameter) => {
            if is_same_name(parameter.name, name) {
                Some(parameter.value)
            } else {
                None
            }
        }
        None => None,
    }
}

/// The variables of which a name speaks: X77 where there are no `@` variables.
#[inline(always)]
pub fn variables_of<'a>(env: &Env<'a>, name: Name) -> Result<&'a Vars, Code>
    ensures { MatchResult result (λ vars. variables_of (surroundings env.now) name ≡ Ok vars.now) (λ code. variables_of (surroundings env.now) name ≡ Err code) }
{
    if !name.global {
        return Ok(env.own);
    }
    match env.globals {
        Some(globals) => Ok(globals),
        None => Err(Code::known(X77_NO_PARTITION)),
    }
}

/// ERR, #PART or #TERM.
pub fn kept_number(env: &Env<'_>, word: u8) -> u8
    ensures { result ≡ kept_number (surroundings env.now) word }
{
    match word {
        ERR => env.err,
        HASH_PART => env.part.number(),
        _ => env.term.number(),
    }
}
