// A file is made: a new one, or a scratched one that is taken again.
ghost use Rattle.std.specs.Prelude.{◌≡◌, ◌≤◌, true, Some, None, Ok, Err, IfOk, IfErr, OnOk};
ghost use Rattle.std.specs.FinMap.{get, insert};
ghost use Rattle.b2_platter.specs.Image.{index_of};
ghost use Rattle.b2_catalog.specs.Catalogue.{catalogue};
ghost use Rattle.b2_catalog.specs.Making.{KeepsOthers, MakesFile, file_made, files_without, make_refusal};

use crate::Entry;
use crate::additions::enter;
use crate::renames::reuse;
use b2_base::Name8;
use b2_base::codes::Code;
use b2_platter::Platter;

/// Makes a live file: a new one of some sectors, or the one of an old name, scratched before, with its own sectors. The
/// codes are those of `enter` and of `reuse`.
pub fn make_file(
    p: &mut Platter,
    old: Option<Name8>,
    name: Name8,
    program: bool,
    sectors: u32,
) -> Result<Entry, Code>
    requires { old ≡ None → 2 ≤ sectors }
    ensures err { IfErr result (λ code. (make_refusal p.old old name sectors ≡ Some code) × (p.new ≡ p.old)) }
    ensures ok { OnOk result (make_refusal p.old old name sectors ≡ None) }
    ensures value { IfOk result (λ e. file_made p.old old name program sectors ≡ Ok (p.new, e)) }
    ensures refused { IfErr result (λ code. file_made p.old old name program sectors ≡ Err code) }
    ensures made { IfOk result (MakesFile p.old old name program sectors p.new) }
    ensures file { IfOk result (λ e. get (catalogue p.new) e.name ≡ Some e) }
    ensures named { IfOk result (λ e. e.name ≡ name) }
    ensures live { IfOk result (λ e. e.live ≡ true) }
    ensures kind { IfOk result (λ e. e.program ≡ program) }
    ensures files { IfOk result (λ e. catalogue p.new ≡ insert (files_without p.old old) name e) }
    ensures index { OnOk result (index_of p.new ≡ index_of p.old) }
    ensures others { IfOk result (KeepsOthers p.old p.new) }
{
    let _image = p.image();
    let _name = name.bytes();
    match old {
        None => enter(p, name, program, sectors),
        Some(old) => reuse(p, old, name, program),
    }
}
