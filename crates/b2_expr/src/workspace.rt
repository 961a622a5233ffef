// What the expressions and the receivers of a statement look at, and what they change.
ghost use Rattle.std.specs.Prelude.{◌≡◌, ◌||◌, option_map};
ghost use Rattle.b2_expr.specs.Scope.{surroundings};
ghost use Rattle.b2_expr.specs.Workspace as spec;
ghost use Rattle.b2_expr.specs.Workspace.{surroundings_of, workspace};

use crate::scope::Env;
use b2_base::Code;
use b2_base::codes::{X75_NOT_DECIMAL, X76_LOCATOR_OR_FIELD};
use b2_text::Text;
use b2_vars::{Setting, Vars};

/// What the expressions and the receivers of a statement look at, and what they change: the variables. Where there are no `@`
/// variables, `globals` is a spare that nobody reads or writes.
#[derive(Drop)]
pub struct Workspace<'a> {
    /// The partition's own variables.
    pub own: &'a mut Vars,
    /// The `@` variables.
    pub globals: &'a mut Vars,
    /// Whether there are such.
    pub found: bool,
    /// Whether a receiver among them was reached.
    pub reached: bool,
    /// What expressions look at beside variables and a text.
    pub setting: Setting,
    /// The text whose functions are called.
    pub home: &'a Text,
}

/// The `@` variables, where there are such.
fn lent_globals<'a>(work: &'a Workspace<'_>) -> Option<&'a Vars>
    ensures { option_map (λ v. v.now) result ≡ (workspace work.now).globals.vars }
{
    if work.found { Some(work.globals) } else { None }
}

/// What the expressions of a statement look at in its workspace.
pub fn surroundings_of<'a>(work: &'a Workspace<'_>) -> Env<'a>
    ensures { surroundings result ≡ surroundings_of (workspace work.now) }
{
    Env {
        own: work.own,
        globals: lent_globals(work),
        home: work.home,
        mode: work.setting.mode,
        err: work.setting.last,
        part: work.setting.part,
        term: work.setting.term,
    }
}

/// Whether a receiver counts as reached by an assignment that ended without a code, or with this one.
fn counts_as_reached(code: &Option<Code>) -> bool
    ensures { result ≡ spec.counts_as_reached code.now }
{
    match code {
        None => true,
        Some(code) => { code.number() == X75_NOT_DECIMAL || code.number() == X76_LOCATOR_OR_FIELD }
    }
}

/// Whether a receiver was reached, before or by an assignment that ended so.
pub fn reached_after(before: bool, code: &Option<Code>) -> bool
    ensures { result ≡ (before || spec.counts_as_reached code.now) }
{
    before || counts_as_reached(code)
}
