// A new file.
ghost use Rattle.std.specs.Prelude.{◌≡◌, ◌+◌, ◌-◌, ◌*◌, ◌<◌, ◌≤◌, true, Some, None, IfOk, IfErr, IfSome, OnOk};
ghost use Rattle.std.specs.FinMap.{insert};
ghost use Rattle.b2_platter.specs.Image.{sector, index_of};
ghost use Rattle.b2_platter.specs.Own.{end_of, next_of};
ghost use Rattle.b2_platter.specs.Checks.{IsGood};
ghost use Rattle.b2_catalog.specs.Catalogue.{catalogue};
ghost use Rattle.b2_catalog.specs.Ways.{place};
ghost use Rattle.b2_catalog.specs.Changes.{put_row, head_with_next, entered};
ghost use Rattle.b2_catalog.specs.Calls.{enter_refusal, new_entry};

use crate::{Entry, limits, lookup, place, spelling};
use b2_base::Name8;
use b2_base::codes::{Code, D83_NAME_PRESENT, D85_INDEX_FULL, D86_NO_ROOM};
use b2_platter::{Platter, edits, image};

/// The head with another next free sector.
#[tactic(auto, unfolding(crate::specs::Changes::head_with_next))]
fn head_with_next(p: &Platter, next: u32) -> [u8; 16]
    requires { next ≤ end_of p.now }
    ensures { result ≡ head_with_next p.now next }
{
    let sectors = p.sectors();
    let (index, end, _) = limits(p);
    edits::image_head(p.layout(), index as u8, sectors, end, next)
}

/// A sector of the index, with the head in place.
fn index_sector(p: &Platter, s: usize, head: &[u8; 16]) -> [u8; 256]
    requires { s < index_of p.now }
    ensures { result ≡ sector (put_row p.now 0 head.now) s }
{
    let sector = image::sector(p.image(), s);
    if s > 0 {
        return *sector;
    }
    spelling::with_row(sector, 0, head)
}

/// Puts a new file into a slot, with the next free sectors.
fn put_new(p: &mut Platter, k: usize, name: Name8, program: bool, sectors: u32)
    requires low { 1 ≤ k }
    requires high { k < 16 * index_of p.old }
    requires some { 2 ≤ sectors }
    requires room { next_of p.old + sectors ≤ end_of p.old }
    requires good { IsGood (entered p.old k name program sectors) }
    ensures { p.new ≡ entered p.old k name program sectors }
{
    let layout = p.layout();
    let (_, _, start) = limits(p);
    let end = start + sectors - 1;
    let head = head_with_next(p, start + sectors);
    let first = index_sector(p, 0, &head);
    let slot = spelling::file_slot(layout, program, start, end, name);
    let own = spelling::with_row(&index_sector(p, k / 16, &head), k % 16, &slot);
    p.put_catalogue(&[
        (0, first),
        ((k / 16) as u32, own),
        (end, spelling::control_sector(layout, 1)),
    ]);
}

/// Enters a live file of some sectors, the last of which says that one is used. D83 where the catalogue has the
/// name, else D85 where no slot is free, else D86 where the catalogue has no room for the sectors.
pub fn enter(p: &mut Platter, name: Name8, program: bool, sectors: u32) -> Result<Entry, Code>
    requires { 2 ≤ sectors }
    ensures err { IfErr result (λ code. (enter_refusal p.old name sectors ≡ Some code) × (p.new ≡ p.old)) }
    ensures ok { IfOk result (λ e. (enter_refusal p.old name sectors ≡ None) × (e ≡ new_entry p.old name program sectors)) }
    ensures catalogue { IfOk result (λ e. catalogue p.new ≡ insert (catalogue p.old) name e) }
    ensures image { OnOk result (IfSome (place p.old name) (λ k. p.new ≡ entered p.old k name program sectors)) }
{
    if lookup::look_slot(p, name).is_some() {
        return Err(Code::known(D83_NAME_PRESENT));
    }
    let Some(k) = place::place_for(p.image(), &name.bytes()) else {
        return Err(Code::known(D85_INDEX_FULL));
    };
    let (_, end, next) = limits(p);
    if sectors > end - next {
        return Err(Code::known(D86_NO_ROOM));
    }
    put_new(p, k, name, program, sectors);
    Ok(Entry {
        name,
        live: true,
        program,
        start: next,
        end: next + sectors - 1,
        used: 1,
    })
}
