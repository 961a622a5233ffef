// DEFFN @PART and SELECT @PART: the name that a partition declares, and the one that it selects.
ghost use Rattle.std.specs.Prelude.{◌≡◌, true};
ghost use Rattle.b2_atom.specs.declared.rows.TheConstants as row;
ghost use Rattle.b2_rows.specs.Rows.{is_phrase, tree_at};
ghost use Rattle.b2_access.specs.Steering.{steered};
ghost use Rattle.b2_stmt.specs.Parts as spec;

use b2_access::{Access, Outcome, Private};
use b2_atom::words::GLOBAL_PART;
use b2_base::Name8;
use b2_base::lexical::rest_after;
use b2_rows::{is_at, quoted_at};

/// The name after @PART at a text, None where the bytes that are written aren't one.
#[tactic(auto, using(crate::proofs::PartRows::part_literal, crate::proofs::PartRows::part_is))]
fn part_name(text: &[u8]) -> Option<Name8>
    requires phrase { is_phrase row.GLOBAL_PART text.now ≡ true }
    ensures { result ≡ spec.part_name (tree_at row.GLOBAL_PART text.now) }
{
    Name8::of(quoted_at(rest_after(text, 1)))
}

/// The name that DEFFN is to declare, where it is DEFFN @PART and the name is one.
#[tactic(auto, using(crate::proofs::PartRows::declared_part, crate::proofs::PartRows::declared_is, crate::proofs::PartRows::function_is))]
pub fn declared_by(unit: &[u8]) -> Option<Name8>
    requires phrase { is_phrase row.DEFFN unit.now ≡ true }
    ensures { result ≡ spec.declared_by (tree_at row.DEFFN unit.now) }
{
    let text = rest_after(unit, 1);
    if is_at(GLOBAL_PART, text) {
        part_name(text)
    } else {
        None
    }
}

/// The name that SELECT @PART is to select, where it is one.
#[tactic(auto, using(crate::proofs::PartRows::selected_part, crate::proofs::PartRows::selected_is))]
pub fn selected_by(unit: &[u8]) -> Option<Name8>
    requires phrase { is_phrase row.SELECT_PART unit.now ≡ true }
    ensures { result ≡ spec.selected_by (tree_at row.SELECT_PART unit.now) }
{
    part_name(rest_after(unit, 1))
}

/// The name that was declared before, where it is another.
fn given_up(name: Name8, before: Option<Name8>) -> Option<Name8>
    ensures { result ≡ spec.given_up name before }
{
    match before {
        Some(old) => { if old == name { None } else { Some(old) } }
        None => None,
    }
}

/// What declaring a name asks for, where one was declared before or none.
pub fn ask_to_declare(before: Option<Name8>, name: Option<Name8>) -> Option<Access>
    ensures { result ≡ spec.asks_to_declare before name }
{
    match name {
        Some(name) => Some(Access::Declare {
            name,
            old: given_up(name, before),
        }),
        None => None,
    }
}

/// What selecting a name asks for.
pub fn ask_to_find(name: Option<Name8>) -> Option<Access>
    ensures { result ≡ spec.asks_to_find name }
{
    match name {
        Some(name) => Some(Access::FindPart { name }),
        None => None,
    }
}

/// A name was declared.
pub fn declare(me: &mut Private, name: Name8) -> Outcome
    ensures ended { record { me = me.new; outcome = result } ≡ steered me.old (spec.declares name me.old) }
    ensures part { me.new.part ≡ me.old.part }
{
    me.declared = Some(name);
    Outcome::Next
}

/// A name was selected, which somebody holds.
pub fn select_part(me: &mut Private, name: Name8) -> Outcome
    ensures ended { record { me = me.new; outcome = result } ≡ steered me.old (spec.selects_part name me.old) }
    ensures part { me.new.part ≡ me.old.part }
{
    me.global = Some(name);
    Outcome::Next
}
