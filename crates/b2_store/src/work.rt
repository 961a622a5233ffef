// What is done to what one object has while what another has is read.
ghost use Rattle.std.specs.Prelude.{◌≡◌, Ok, OnOk, IfErr, OnErr};
ghost use Rattle.b2_store.specs.Work.{WorkFails, worked};

use crate::kept_item::Kept;
use crate::programs::{load_text, save_text};
use crate::two_rows::move_files;
use b2_base::{Fault, Name8};
use std::alloc::Global;

/// What is done to what one object has while what another has is read.
#[derive(Drop)]
pub enum Work {
    /// Lines of a text, which is read, are saved as a program on a platter, in the place of a file where one is named.
    Save {
        old: Option<Name8>,
        name: Name8,
        from: u16,
        to: u16,
    },
    /// The lines of a program on a platter, which is read, are loaded into a text.
    Load {
        name: Name8,
        replace: bool,
    },
    /// The file of a name is moved from a platter, which is read, to another, or all live files where no name is given.
    Move {
        name: Option<Name8>,
    },
}

/// Saves lines of a text on a platter.
#[tactic(auto, using(crate::proofs::KeptItems::platter_same))]
fn save_kept(
    alloc: Global,
    read: &Kept,
    item: &mut Kept,
    old: Option<Name8>,
    name: Name8,
    from: u16,
    to: u16,
) -> Result<(), Fault>
    ensures ok { OnOk result (worked (Work.Save old name from to) read.now item.old ≡ Ok item.new) }
    ensures fails { IfErr result (WorkFails (Work.Save old name from to) (worked (Work.Save old name from to) read.now item.old)) }
    ensures kept { OnErr result (item.new ≡ item.old) }
{
    let Some(text) = read.text() else {
        return Ok(());
    };
    let Some(platter) = item.platter_mut() else {
        return Ok(());
    };
    save_text(alloc, platter, text, from, to, old, name)
}

/// Loads the lines of a program into a text.
#[tactic(auto, using(crate::proofs::KeptItems::text_same))]
fn load_kept(
    alloc: Global,
    read: &Kept,
    item: &mut Kept,
    name: Name8,
    replace: bool,
) -> Result<(), Fault>
    ensures ok { OnOk result (worked (Work.Load name replace) read.now item.old ≡ Ok item.new) }
    ensures fails { IfErr result (WorkFails (Work.Load name replace) (worked (Work.Load name replace) read.now item.old)) }
    ensures kept { OnErr result (item.new ≡ item.old) }
{
    let Some(platter) = read.platter() else {
        return Ok(());
    };
    let Some(text) = item.text_mut() else {
        return Ok(());
    };
    load_text(alloc, platter, name, text, replace)
}

/// Moves files to another platter.
#[tactic(auto, using(crate::proofs::KeptItems::platter_same))]
fn move_kept(alloc: Global, read: &Kept, item: &mut Kept, name: Option<Name8>) -> Result<(), Fault>
    ensures ok { OnOk result (worked (Work.Move name) read.now item.old ≡ Ok item.new) }
    ensures fails { IfErr result (WorkFails (Work.Move name) (worked (Work.Move name) read.now item.old)) }
    ensures kept { OnErr result (item.new ≡ item.old) }
{
    let Some(from) = read.platter() else {
        return Ok(());
    };
    let Some(to) = item.platter_mut() else {
        return Ok(());
    };
    move_files(alloc, from, to, name)
}

/// Does a work: one item is changed while another is read.
pub fn work_on(alloc: Global, work: &Work, read: &Kept, item: &mut Kept) -> Result<(), Fault>
    ensures ok { OnOk result (worked work.now read.now item.old ≡ Ok item.new) }
    ensures fails { IfErr result (WorkFails work.now (worked work.now read.now item.old)) }
    ensures kept { OnErr result (item.new ≡ item.old) }
{
    match work {
        Work::Save {
            old,
            name,
            from,
            to,
        } => save_kept(alloc, read, item, *old, *name, *from, *to),
        Work::Load { name, replace } => load_kept(alloc, read, item, *name, *replace),
        Work::Move { name } => move_kept(alloc, read, item, *name),
    }
}
