// A file is opened, and found again by its slot.
ghost use Rattle.std.specs.Prelude.{◌≡◌, ◌-◌, ◌<◌, ◌≤◌, [], true, false, Some, None, Ok, Err, is_some, IfSome, IfOk, IfErr, OnOk};
ghost use Rattle.std.specs.FinMap.{get, insert};
ghost use Rattle.b2_platter.specs.Own.{sectors_of};
ghost use Rattle.b2_platter.specs.Checks.{IsGood};
ghost use Rattle.b2_catalog.specs.Catalogue.{catalogue};
ghost use Rattle.b2_catalog.specs.Making.{KeepsOthers, files_without, make_refusal};
ghost use Rattle.b2_datafile.specs.Slots.{open_refusal, opened, file_of};
ghost use Rattle.b2_datafile.specs.Files.{IsWhole, MadeEmpty, new_opened};

use crate::saving::put_end;
use b2_base::codes::{D82_NO_FILE, D89_OTHER_KIND};
use b2_base::{Addr, Code, Name8, Slot};
use b2_catalog::{Entry, look, make_file};
use b2_platter::Platter;

/// Opens the live data file of a name at its first record. D82 where there is no live file of the name, else D89 where it
/// is a program.
pub fn open(p: &Platter, addr: Addr, name: Name8) -> Result<Slot, Code>
    ensures ok { IfOk result (λ slot. (open_refusal (get (catalogue p.now) name) ≡ None) × IfSome (get (catalogue p.now) name) (λ e. slot ≡ opened addr e)) }
    ensures err { IfErr result (λ code. open_refusal (get (catalogue p.now) name) ≡ Some code) }
{
    let Some(e) = look(p, name) else {
        return Err(Code::known(D82_NO_FILE));
    };
    if !e.live {
        return Err(Code::known(D82_NO_FILE));
    }
    if e.program {
        return Err(Code::known(D89_OTHER_KIND));
    }
    Ok(slot_of(addr, name, &e))
}

/// The slot of a file of a name, at its first record.
pub(crate) fn slot_of(addr: Addr, name: Name8, e: &Entry) -> Slot
    requires { e.now.name ≡ name }
    ensures { result ≡ opened addr e.now }
{
    Slot {
        addr,
        name,
        start: e.start,
        end: e.end,
        pos: e.start,
    }
}

/// The live data file of a slot's name that begins at its start, None where there is none.
#[inline(always)]
pub(crate) fn file_of(p: &Platter, s: &Slot) -> Option<Entry>
    ensures entry { result ≡ file_of p.now s.now }
    ensures named { IfSome result (λ e. get (catalogue p.now) e.name ≡ Some e) }
    ensures live { IfSome result (λ e. e.live ≡ true) }
    ensures start { IfSome result (λ e. e.start ≡ s.now.start) }
    ensures order { IfSome result (λ e. e.start < e.end) }
    ensures within { IfSome result (λ e. e.end < sectors_of p.now) }
    ensures used { IfSome result (λ e. 1 ≤ e.used) }
    ensures few { IfSome result (λ e. e.used ≤ e.end - e.start) }
    ensures good { IsGood p.now }
{
    let _image = p.image();
    let e = look(p, s.name)?;
    if e.live && !e.program && e.start == s.start {
        return Some(e);
    }
    None
}

/// Makes a data file with no records and opens it: a new file of some sectors, or a scratched file's sectors again where an
/// old name is given. The codes are those of `enter` and of `reuse`.
pub fn open_new(
    p: &mut Platter,
    addr: Addr,
    old: Option<Name8>,
    sectors: u32,
    name: Name8,
) -> Result<Slot, Code>
    requires { old ≡ None → 2 ≤ sectors }
    ensures err { IfErr result (λ code. (make_refusal p.old old name sectors ≡ Some code) × (p.new ≡ p.old)) }
    ensures ok { OnOk result (make_refusal p.old old name sectors ≡ None) }
    ensures value { IfOk result (λ slot. new_opened p.old addr old sectors name ≡ Ok (p.new, slot)) }
    ensures refused { IfErr result (λ code. new_opened p.old addr old sectors name ≡ Err code) }
    ensures image { OnOk result (MadeEmpty p.old old name sectors p.new) }
    ensures there { OnOk result (is_some (get (catalogue p.new) name) ≡ true) }
    ensures file { IfOk result (λ slot. IfSome (get (catalogue p.new) name) (λ e. slot ≡ opened addr e)) }
    ensures whole { OnOk result (IfSome (get (catalogue p.new) name) (λ e. IsWhole p.new e [])) }
    ensures files { OnOk result (IfSome (get (catalogue p.new) name) (λ e. catalogue p.new ≡ insert (files_without p.old old) name e)) }
    ensures others { OnOk result (IfSome (get (catalogue p.new) name) (KeepsOthers p.old p.new)) }
{
    let e = match make_file(p, old, name, false, sectors) {
        Ok(e) => e,
        Err(code) => return Err(code),
    };
    let _image = p.image();
    let slot = slot_of(addr, name, &e);
    put_end(p, e, e.start);
    Ok(slot)
}
