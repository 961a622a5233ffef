// What is read of the head, and formatting.
ghost use Rattle.std.specs.Prelude.{◌≡◌, ◌≤◌, OnOk, IfErr};
ghost use Rattle.b2_base.specs.declared.codes.TheConstants.{P34_RANGE};
ghost use Rattle.b2_platter.specs.Layout.{layout_of};
ghost use Rattle.b2_platter.specs.Image.{index_of};
ghost use Rattle.b2_platter.specs.Own.{end_of, next_of};
ghost use Rattle.b2_platter.specs.Checks.{IsGood};
ghost use Rattle.std.specs.FinMap.{empty};
ghost use Rattle.b2_platter.specs.Edits.{CanFormat, formatted};
ghost use Rattle.b2_catalog.specs.Catalogue.{catalogue};

use b2_base::codes::{Code, P34_RANGE};
use b2_platter::{Platter, image};

/// How many sectors the index takes, the first sector after the catalogue, and the next free sector.
pub fn limits(p: &Platter) -> (u32, u32, u32)
    ensures index { result.0 ≡ index_of p.now }
    ensures few { result.0 ≤ 255 }
    ensures end { result.1 ≡ end_of p.now }
    ensures next { result.2 ≡ next_of p.now }
    ensures good { IsGood p.now }
{
    let layout = p.layout();
    let bytes = p.image();
    (
        image::index(bytes) as u32,
        image::catalogue_end(layout, bytes),
        image::next_free(layout, bytes),
    )
}

/// Formats the platter: an empty index of `index` sectors, and a catalogue up to a last sector. P34 where the index
/// isn't from 1 to 255 sectors, or the catalogue wouldn't end after the index and within the platter.
pub fn format(p: &mut Platter, index: u32, end: u32) -> Result<(), Code>
    ensures ok { OnOk result (CanFormat (layout_of p.old) p.old index end × (p.new ≡ formatted (layout_of p.old) p.old index end)) }
    ensures empties { OnOk result (catalogue p.new ≡ empty) }
    ensures err { IfErr result (λ code. (code ≡ P34_RANGE) × ¬ CanFormat (layout_of p.old) p.old index end × (p.new ≡ p.old)) }
{
    if index < 1 || index > 255 || index > end || end >= p.sectors() {
        return Err(Code::known(P34_RANGE));
    }
    p.put_index(index, end);
    Ok(())
}
