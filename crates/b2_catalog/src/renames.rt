// A scratched file that is taken again, under its own name or another.
ghost use Rattle.std.specs.Prelude.{◌≡◌, ◌&&◌, true, not, is_some, Some, None, IfOk, IfErr, IfSome, OnOk};
ghost use Rattle.std.specs.Str.{bytes_eq};
ghost use Rattle.std.specs.FinMap.{get, insert, remove};
ghost use Rattle.b2_platter.specs.Checks.{IsGood};
ghost use Rattle.b2_catalog.specs.Catalogue.{catalogue, entry_at};
ghost use Rattle.b2_catalog.specs.Ways.{slot_found};
ghost use Rattle.b2_catalog.specs.Changes.{reused};
ghost use Rattle.b2_catalog.specs.Calls.{reuse_refusal, reused_place};

use crate::changes::put_row;
use crate::{Entry, lookup, place, spelling};
use b2_base::Name8;
use b2_base::codes::{Code, D82_NO_FILE, D83_NAME_PRESENT, D84_NOT_SCRATCHED, D85_INDEX_FULL};
use b2_platter::Platter;

/// Whether two names are one.
fn is_name_same(old: Name8, name: Name8) -> bool
    ensures { result ≡ bytes_eq old name }
{
    old == name
}

/// Whether another name is in the catalogue already.
fn is_name_taken(p: &Platter, old: Name8, name: Name8) -> bool
    ensures value { result ≡ (not (bytes_eq old name) && is_some (slot_found p.now name)) }
    ensures good { IsGood p.now }
{
    let _image = p.image();
    !is_name_same(old, name) && lookup::look_slot(p, name).is_some()
}

/// The slot for the file in slot k: its own where the name stays, else the place of the new name.
fn new_place(p: &Platter, k: usize, old: Name8, name: Name8) -> Option<usize>
    requires { slot_found p.now old ≡ Some k }
    ensures { result ≡ reused_place p.now old name }
{
    if is_name_same(old, name) {
        return Some(k);
    }
    place::place_for(p.image(), &name.bytes())
}

/// Makes a scratched file live again, under its own name or another; it keeps its sectors. D83 where another name is in
/// the catalogue, else D82 where the old one isn't, else D84 where the old file is live, else D85 where another name
/// finds no free slot.
pub fn reuse(p: &mut Platter, old: Name8, name: Name8, program: bool) -> Result<Entry, Code>
    ensures err { IfErr result (λ code. (reuse_refusal p.old old name ≡ Some code) × (p.new ≡ p.old)) }
    ensures ok { IfOk result (λ e. (reuse_refusal p.old old name ≡ None) × IfSome (get (catalogue p.old) old) (λ was. e ≡ record was { name = name; live = true; program = program })) }
    ensures catalogue { IfOk result (λ e. catalogue p.new ≡ insert (remove (catalogue p.old) old) name e) }
    ensures image { OnOk result (IfSome (slot_found p.old old) (λ k. IfSome (reused_place p.old old name) (λ to. p.new ≡ reused p.old k to name program))) }
{
    if is_name_taken(p, old, name) {
        return Err(Code::known(D83_NAME_PRESENT));
    }
    let Some(k) = lookup::look_slot(p, old) else {
        return Err(Code::known(D82_NO_FILE));
    };
    let was = lookup::entry_at(p, k, old);
    if was.live {
        return Err(Code::known(D84_NOT_SCRATCHED));
    }
    let Some(to) = new_place(p, k, old, name) else {
        return Err(Code::known(D85_INDEX_FULL));
    };
    let slot = spelling::file_slot(p.layout(), program, was.start, was.end, name);
    put_row(p, k, &spelling::gone_slot());
    put_row(p, to, &slot);
    Ok(Entry {
        name,
        live: true,
        program,
        start: was.start,
        end: was.end,
        used: was.used,
    })
}
