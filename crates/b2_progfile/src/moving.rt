// A file is moved to another platter.
ghost use Rattle.std.specs.Prelude.{◌≡◌, ◌+◌, ◌-◌, ◌^◌, ◌<◌, ◌≤◌, ℕ, true, Some, None, IfSome, IfOk, IfErr, OnOk};
ghost use Rattle.std.specs.FinMap.{get, insert};
ghost use Rattle.b2_platter.specs.Layout.{layout_of};
ghost use Rattle.b2_platter.specs.Own.{sectors_of};
ghost use Rattle.b2_platter.specs.Image.{sectors_at};
ghost use Rattle.b2_platter.specs.Checks.{IsGood};
ghost use Rattle.b2_platter.specs.Edits.{is_data_sector, put_from};
ghost use Rattle.b2_catalog.specs.Catalogue.{catalogue};
ghost use Rattle.b2_catalog.specs.Calls.{enter_refusal, new_entry};
ghost use Rattle.b2_catalog.specs.Changes.{entered};
ghost use Rattle.b2_catalog.specs.Ways.{place};
ghost use Rattle.b2_progfile.specs.Saving.{file_filled_with};
ghost use Rattle.b2_progfile.specs.Moving.{Copied, IsLiveFile, Moved, all_sectors, move_refusal, own_sectors};

use b2_base::codes::D82_NO_FILE;
use b2_base::{Code, Name8};
use b2_catalog::{Entry, enter, look, set_used};
use b2_platter::Platter;

/// Writes sectors of another platter.
fn put_copies(p: &mut Platter, at: u32, from: &Platter, start: u32, count: u32)
    requires ends { at + count < 2 ^ 32 }
    requires within { start + count ≤ sectors_of from.now }
    requires good { IsGood p.old }
    requires sectors { (n : ℕ) → at ≤ n → n < at + count → is_data_sector (layout_of p.old) p.old n ≡ true }
    ensures { p.new ≡ put_from p.old at (sectors_at from.now start count) }
{
    let _source = from.image();
    for k in 0..count {
        p.put_file(at + k, from.sector(start + k));
    }
}

/// Fills a file with the sectors of a file of another platter, and says that as many are used.
fn copy_sectors(to: &mut Platter, new: Entry, from: &Platter, e: &Entry)
    requires file { get (catalogue to.old) new.name ≡ Some new }
    requires live { new.live ≡ true }
    requires source { get (catalogue from.now) e.now.name ≡ Some e.now }
    requires same { new.end ≡ new.start + (e.now.end - e.now.start) }
    ensures image { to.new ≡ file_filled_with to.old new.start new.end (own_sectors from.now e.now) e.now.used }
    ensures files { catalogue to.new ≡ insert (catalogue to.old) new.name (record new { used = e.now.used }) }
    ensures kept { sectors_at to.new new.start (e.now.end - e.now.start) ≡ own_sectors from.now e.now }
{
    let _target = to.image();
    let _source = from.image();
    let count = e.end - e.start;
    put_copies(to, new.start, from, e.start, count);
    set_used(to, new, e.used);
}

/// How many sectors a file has, with its control sector.
pub(crate) fn all_sectors(from: &Platter, e: &Entry) -> u32
    requires { get (catalogue from.now) e.now.name ≡ Some e.now }
    ensures value { result ≡ all_sectors e.now }
    ensures some { 2 ≤ result }
    ensures few { result ≤ 262144 }
{
    let _source = from.image();
    let count = e.end - e.start;
    count + 1
}

/// Enters a file of some sectors.
fn enter_copy(to: &mut Platter, name: Name8, program: bool, sectors: u32) -> Result<Entry, Code>
    requires { 2 ≤ sectors }
    ensures err { IfErr result (λ code. (enter_refusal to.old name sectors ≡ Some code) × (to.new ≡ to.old)) }
    ensures ok { OnOk result (enter_refusal to.old name sectors ≡ None) }
    ensures made { IfOk result (λ n. n ≡ new_entry to.old name program sectors) }
    ensures image { OnOk result (IfSome (place to.old name) (λ k. to.new ≡ entered to.old k name program sectors)) }
    ensures files { IfOk result (λ n. catalogue to.new ≡ insert (catalogue to.old) name n) }
    ensures file { IfOk result (λ n. get (catalogue to.new) name ≡ Some n) }
{
    enter(to, name, program, sectors)
}

/// Copies a live file of a platter to another, where it is a new file. The codes are those of `enter`, and leave the other
/// platter as it was.
pub(crate) fn copy_file(to: &mut Platter, from: &Platter, e: &Entry) -> Result<(), Code>
    requires { IsLiveFile from.now e.now }
    ensures err { IfErr result (λ code. (enter_refusal to.old e.now.name (all_sectors e.now) ≡ Some code) × (to.new ≡ to.old)) }
    ensures ok { OnOk result (enter_refusal to.old e.now.name (all_sectors e.now) ≡ None) }
    ensures copied { OnOk result (Copied from.now to.old to.new e.now) }
{
    let _source = from.image();
    let _target = to.image();
    let sectors = all_sectors(from, e);
    match enter_copy(to, e.name, e.program, sectors) {
        Ok(new) => {
            copy_sectors(to, new, from, e);
            Ok(())
        }
        Err(code) => Err(code),
    }
}

/// Moves the live file of a name to another platter, where it is a new file; on its own it stays. D82 where there is no
/// live file of the name, and then the codes of `enter`, which leave the other platter as it was. It takes no memory.
pub fn move_file(from: &Platter, name: Name8, to: &mut Platter) -> Result<(), Code>
    ensures err { IfErr result (λ code. (move_refusal from.now name to.old ≡ Some code) × (to.new ≡ to.old)) }
    ensures ok { OnOk result (move_refusal from.now name to.old ≡ None) }
    ensures moved { OnOk result (Moved from.now name to.old to.new) }
{
    let Some(e) = look(from, name) else {
        return Err(Code::known(D82_NO_FILE));
    };
    if !e.live {
        return Err(Code::known(D82_NO_FILE));
    }
    copy_file(to, from, &e)
}
