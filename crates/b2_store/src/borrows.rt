// Who stands inside which text.
ghost use Rattle.std.specs.Prelude.{◌≡◌, OnOk};
ghost use Rattle.b2_access.specs.Borrowers.{homes_marked};
ghost use Rattle.b2_access.specs.Stopping.{first_inside};
ghost use Rattle.b2_access.specs.Store.{content};
ghost use Rattle.b2_store.specs.Inside.{entered, given_back, given_one_back, left};

use crate::lookups::Lookups;
use b2_access::{Object, all_parts, is_marked};
use b2_base::{NoMemory, Part};

/// The first that stands inside the text of a partition, None where nobody does.
pub fn first_inside<S: Lookups>(store: &S, home: Part) -> Option<Part>
    ensures { result ≡ first_inside (content (S.state store.now) (Object.Borrow home)) }
{
    match store.inside(home) {
        Some(parts) => parts.first(),
        None => None,
    }
}

/// A partition enters the text of another.
pub fn enter_text<S: Lookups>(store: &mut S, who: Part, home: Part) -> Result<(), NoMemory>
    ensures { OnOk result (S.state store.new ≡ entered who home (S.state store.old)) }
{
    if let Some(parts) = store.inside_mut(home) {
        parts.push(who)?;
    }
    Ok(())
}

/// A partition leaves the text of another once.
pub fn leave_text<S: Lookups>(store: &mut S, who: Part, home: Part)
    ensures { S.state store.new ≡ left who home (S.state store.old) }
{
    if let Some(parts) = store.inside_mut(home) {
        parts.remove_last(who);
    }
}

/// A partition gives a text back: it stands inside no more.
fn give_one_back<S: Lookups>(store: &mut S, who: Part, home: Part)
    ensures { S.state store.new ≡ given_one_back who home (S.state store.old) }
{
    if let Some(parts) = store.inside_mut(home) {
        parts.remove_all(who);
    }
}

/// It gives back each text that a mask marks.
pub fn give_back<S: Lookups>(store: &mut S, who: Part, homes: u16)
    ensures { S.state store.new ≡ given_back who (homes_marked homes) (S.state store.old) }
{
    for home in &all_parts() {
        if is_marked(homes, *home) {
            give_one_back(store, who, *home);
        }
    }
}
