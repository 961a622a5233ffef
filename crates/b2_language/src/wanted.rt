// Whose `@` variables a statement wants to be lent.
ghost use Rattle.std.specs.Prelude.{◌≡◌};
ghost use Rattle.b2_atom.specs.Tree.{uses_in};
ghost use Rattle.b2_rows.specs.Rows.{tree_at};
ghost use Rattle.b2_language.specs.Wanted as spec;

use b2_access::{At, Private};
use b2_base::Part;
use b2_rows::RowUnit;

/// Whether a statement names `@` variables: by itself, or it may by a function that it calls.
pub fn names_globals(unit: &RowUnit<'_>) -> bool
    requires uses { unit.now.uses ≡ uses_in (tree_at unit.now.row unit.now.bytes.now) }
    ensures { result ≡ spec.names_globals (tree_at unit.now.row unit.now.bytes.now) }
{
    unit.uses.globals || unit.uses.functions
}

/// Whose `@` variables are lent at a home.
fn lent_at(home: Part, me: &Private) -> At
    ensures { result ≡ spec.lent_at home me.now }
{
    if home != me.part {
        return At::Home;
    }
    match me.global {
        Some(name) => At::Named(name),
        None => At::Home,
    }
}

/// Whose `@` variables the statement of a unit wants that stands in the text of a home.
pub fn globals_wanted(unit: &RowUnit<'_>, home: Part, me: &Private) -> At
    requires uses { unit.now.uses ≡ uses_in (tree_at unit.now.row unit.now.bytes.now) }
    ensures { result ≡ spec.wanted_by home (tree_at unit.now.row unit.now.bytes.now) me.now }
{
    if names_globals(unit) {
        lent_at(home, me)
    } else {
        At::None
    }
}
