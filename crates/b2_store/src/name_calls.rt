// What is asked about names.
ghost use Rattle.std.specs.Prelude.{ℕ, IfOk};
ghost use Rattle.b2_store.specs.Doing.{Does};

use crate::lookups::Lookups;
use crate::names::{is_held_by_other, take_name};
use b2_access::{Access, Answer};
use b2_base::codes::X78_NAME_HELD;
use b2_base::{Code, Name8, NoMemory, Part};

/// A partition declares a name, unless another one holds it.
#[tactic(auto, using(crate::proofs::Naming::declared, crate::proofs::Naming::declared_by_another))]
pub(crate) fn declare<S: Lookups>(
    store: &mut S,
    who: Part,
    name: Name8,
    old: Option<Name8>,
) -> Result<Answer, NoMemory>
    ensures { IfOk result (Does who (Access.Declare name old) (S.state store.old) (S.state store.new)) }
{
    if is_held_by_other(store, who, name) {
        return Ok(Answer::Refused(Code::known(X78_NAME_HELD)));
    }
    take_name(store, who, name, old)?;
    Ok(Answer::Done)
}

/// Says who holds a name.
pub(crate) fn find_part<S: Lookups>(store: &S, name: Name8) -> Answer
    ensures { (who : ℕ) → Does who (Access.FindPart name) (S.state store.now) (S.state store.now) result }
{
    match store.name_holder(name) {
        Some(p) => Answer::Holder(p),
        None => Answer::NoPart,
    }
}
