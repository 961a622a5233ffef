// What disks do with programs.
ghost use Rattle.std.specs.Prelude.{◌≡◌, Ok, Err, OnOk, IfErr, OnErr};
ghost use Rattle.b2_catalog.specs.Results.{FailsBy};
ghost use Rattle.b2_store.specs.DiskWork.{disks};

use b2_base::{Fault, Name8};
use b2_platter::Platter;
use b2_progfile::{load, move_file, move_platter, save};
use b2_text::Text;
use std::alloc::Global;

/// Saves lines of a text as a program.
pub fn save_text(
    alloc: Global,
    p: &mut Platter,
    text: &Text,
    from: u16,
    to: u16,
    old: Option<Name8>,
    name: Name8,
) -> Result<(), Fault>
    ensures ok { OnOk result (disks.save_program old name from to text.now p.old ≡ Ok p.new) }
    ensures fails { IfErr result (FailsBy (disks.save_program old name from to text.now p.old)) }
    ensures kept { OnErr result (p.new ≡ p.old) }
{
    save(alloc, p, text, from, to, old, name)
}

/// Loads the lines of a program into a text.
pub fn load_text(
    alloc: Global,
    p: &Platter,
    name: Name8,
    text: &mut Text,
    replace: bool,
) -> Result<(), Fault>
    ensures ok { OnOk result (disks.load_program name replace p.now text.old ≡ Ok text.new) }
    ensures fails { IfErr result (FailsBy (disks.load_program name replace p.now text.old)) }
    ensures kept { OnErr result (text.new ≡ text.old) }
{
    load(alloc, p, name, text, replace)
}
