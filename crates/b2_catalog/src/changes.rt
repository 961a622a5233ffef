// Calls that change one file's slot, or its control sector.
ghost use Rattle.std.specs.Prelude.{◌≡◌, ◌-◌, ◌*◌, ◌<◌, ◌≤◌, true, Some, None, IsSome, IfSome, OnOk, IfErr};
ghost use Rattle.std.specs.FinMap.{get, insert};
ghost use Rattle.b2_base.specs.declared.codes.TheConstants.{D82_NO_FILE};
ghost use Rattle.b2_platter.specs.Layout.{layout_of};
ghost use Rattle.b2_platter.specs.Image.{row, index_of};
ghost use Rattle.b2_platter.specs.Checks.{IsGood};
ghost use Rattle.b2_platter.specs.Edits.{put_sector};
ghost use Rattle.b2_catalog.specs.Catalogue.{catalogue};
ghost use Rattle.b2_catalog.specs.Ways.{slot_found};
ghost use Rattle.b2_catalog.specs.Changes.{put_row, scratched_slot, control_sector};
ghost use Rattle.b2_catalog.specs.Calls.{catalogue_scratched};

use crate::{Entry, lookup, spelling};
use b2_base::Name8;
use b2_base::codes::{Code, D82_NO_FILE};
use b2_platter::{Platter, image};

/// Puts a row of the index in place.
pub fn put_row(p: &mut Platter, k: usize, row: &[u8; 16])
    requires within { k < 16 * index_of p.old }
    requires good { IsGood (put_row p.old k row.now) }
    ensures { p.new ≡ put_row p.old k row.now }
{
    let own = spelling::with_row(image::sector(p.image(), k / 16), k % 16, row);
    p.put_catalogue(&[((k / 16) as u32, own)]);
}

/// Scratches the file with the name; one that is scratched stays as it is. D82 where the catalogue hasn't the name.
pub fn scratch(p: &mut Platter, name: Name8) -> Result<(), Code>
    ensures err { IfErr result (λ code. (code ≡ D82_NO_FILE) × (get (catalogue p.old) name ≡ None) × (p.new ≡ p.old)) }
    ensures there { OnOk result (IsSome (get (catalogue p.old) name)) }
    ensures ok { OnOk result (catalogue p.new ≡ catalogue_scratched (catalogue p.old) name) }
    ensures image { OnOk result (IfSome (slot_found p.old name) (λ k. p.new ≡ put_row p.old k (scratched_slot (row p.old k)))) }
{
    let Some(k) = lookup::look_slot(p, name) else {
        return Err(Code::known(D82_NO_FILE));
    };
    let row = spelling::scratched_slot(image::row(p.image(), k));
    put_row(p, k, &row);
    Ok(())
}

/// Says how many sectors of a live file are used.
pub fn set_used(p: &mut Platter, e: Entry, used: u32)
    requires there { get (catalogue p.old) e.name ≡ Some e }
    requires live { e.live ≡ true }
    requires some { 1 ≤ used }
    requires few { used ≤ e.end - e.start }
    ensures catalogue { catalogue p.new ≡ insert (catalogue p.old) e.name (record e { used = used }) }
    ensures image { p.new ≡ put_sector p.old e.end (control_sector (layout_of p.old) used) }
{
    let sectors = p.sectors();
    prove!(e.end < sectors);
    let control = spelling::control_sector(p.layout(), used);
    p.put_catalogue(&[(e.end, control)]);
}
