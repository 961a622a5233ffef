// Texts that are lent after an edit of another partition, over a store that is watched. Partitions 1 and 2 are in front of the
// terminals 1 and 2.
//
// `lent | EDIT`: what an access of partition 2 is answered, and then, once its own text was lent to partition 1 and once that of
// partition 2 was, the first lines of the own text and of the one that is lent, whether `@` variables are found where none are asked for,
// and who isn't clean.
ghost use Rattle.std.specs.Prelude.{◌≡◌, IfOk, OnOk, IsSome, true};
ghost use Rattle.b2_access.specs.Store.{content};
ghost use Rattle.b2_access.specs.Touching.{IsLegal};
ghost use Rattle.b2_store.specs.Meaning.{store_of};
ghost use Rattle.b2_term.specs.Orders.{is_order};
ghost use Rattle.b2_world_tests.specs.Texts.{HasTexts, KeepsTexts};

use crate::accesses::access_of;
use crate::stores::{show_answer, show_clean};
use b2_access::{Access, Answer, At, Object, Shared};
use b2_audit::{Seen, Watched};
use b2_base::{NoMemory, Part, Term};
use b2_cases::Sheet;
use b2_store::{Ends, StoreBoot, Stores};
use b2_term::PartList;
use std::alloc::Global;

/// The area of each text and of each partition's `@` variables.
const AREA: usize = 64;

/// A partition alone in order.
fn alone_in_order(part: Part) -> PartList
    ensures { is_order result ≡ true }
{
    PartList::of(&[part])
}

/// The store of two partitions.
fn two_partitions(alloc: Global) -> Result<Stores, NoMemory>
    ensures texts { IfOk result (λ s. HasTexts (store_of s)) }
{
    let mut partitions = Vec::new(alloc);
    partitions.push((Part::known(1), AREA, AREA))?;
    partitions.push((Part::known(2), AREA, AREA))?;
    let mut terminals = Vec::new(alloc);
    terminals.push((
        Term::known(1),
        Part::known(1),
        alone_in_order(Part::known(1)),
    ))?;
    terminals.push((
        Term::known(2),
        Part::known(2),
        alone_in_order(Part::known(2)),
    ))?;
    let boot = StoreBoot {
        partitions,
        terminals,
        printers: Vec::new(alloc),
        platters: Vec::new(alloc),
    };
    Stores::new(alloc, &boot, Vec::new(alloc))
}

/// Asks a store of any kind.
fn asked<S: Shared>(stores: &mut S, who: Part, access: &Access) -> Result<Answer, NoMemory>
    requires legal { IsLegal access.now }
    ensures same { S.holds stores.new ≡ S.holds stores.old }
    ensures kept { OnOk result (KeepsTexts (S.store (S.meaning stores.old)) (S.store (S.meaning stores.new))) }
{
    stores.serve(who, access)
}

/// The first lines of the own text and of the home's that a store of any kind lends where no `@` variables are asked for, and whether some
/// are found.
fn first_lent<S: Shared>(stores: &mut S, who: Part, home: Part) -> (Option<u16>, Option<u16>, bool)
    requires own { IsSome (content (S.store (S.meaning stores.old)) (Object.Text who)) }
    requires home { IsSome (content (S.store (S.meaning stores.old)) (Object.Text home)) }
    ensures same { S.holds stores.new ≡ S.holds stores.old }
    ensures kept { KeepsTexts (S.store (S.meaning stores.old)) (S.store (S.meaning stores.new)) }
{
    let lent = stores.lend(who, home, &At::None);
    (
        lent.own.next_after(None),
        lent.home.next_after(None),
        lent.found,
    )
}

/// Shows the number of a line, if there is one.
fn show_line(sheet: &mut Sheet<'_>, name: &str, line: Option<u16>) {
    sheet.show(name);
    match line {
        Some(number) => sheet.show_number(u64::from(number)),
        None => sheet.show("none"),
    }
}

/// Lends a text to partition 1 over the watched store, and shows what is lent.
fn lend(sheet: &mut Sheet<'_>, stores: &mut Stores, seen: &mut Seen, home: Part)
    requires own { IsSome (content (store_of stores.old) (Object.Text 1)) }
    requires home { IsSome (content (store_of stores.old) (Object.Text home)) }
    ensures kept { KeepsTexts (store_of stores.old) (store_of stores.new) }
{
    let mut watched = Watched::new(stores, seen);
    let (own, home, found) = first_lent(&mut watched, Part::known(1), home);
    show_line(sheet, ", own ", own);
    show_line(sheet, " home ", home);
    sheet.show(" globals ");
    sheet.show_truth(found);
}

/// Lends its own text to partition 1.
fn lend_own(sheet: &mut Sheet<'_>, stores: &mut Stores, seen: &mut Seen)
    requires texts { HasTexts (store_of stores.old) }
    ensures kept { KeepsTexts (store_of stores.old) (store_of stores.new) }
{
    lend(sheet, stores, seen, Part::known(1));
}

/// Lends it that of partition 2.
fn lend_other(sheet: &mut Sheet<'_>, stores: &mut Stores, seen: &mut Seen)
    requires texts { HasTexts (store_of stores.old) }
    ensures kept { KeepsTexts (store_of stores.old) (store_of stores.new) }
{
    lend(sheet, stores, seen, Part::known(2));
}

/// Lends both texts, one after the other.
#[tactic(auto, using(crate::proofs::TextsKept::texts_kept))]
fn lend_both(sheet: &mut Sheet<'_>, stores: &mut Stores, seen: &mut Seen)
    requires texts { HasTexts (store_of stores.old) }
{
    lend_own(sheet, stores, seen);
    sheet.show(", ");
    show_clean(sheet, seen);
    lend_other(sheet, stores, seen);
    sheet.show(", ");
    show_clean(sheet, seen);
}

/// The answer to an access of partition 2 over the watched store.
fn answered(stores: &mut Stores, seen: &mut Seen, access: &Access) -> Result<Answer, NoMemory>
    requires legal { IsLegal access.now }
    ensures kept { OnOk result (KeepsTexts (store_of stores.old) (store_of stores.new)) }
{
    let mut watched = Watched::new(stores, seen);
    asked(&mut watched, Part::known(2), access)
}

/// Makes an access of partition 2, and lends both texts then.
#[tactic(auto, using(crate::proofs::TextsKept::texts_kept))]
fn lend_after(sheet: &mut Sheet<'_>, stores: &mut Stores, access: &Access)
    requires legal { IsLegal access.now }
    requires texts { HasTexts (store_of stores.old) }
{
    let mut seen = Seen::new(sheet.alloc());
    match answered(stores, &mut seen, access) {
        Ok(answer) => {
            show_answer(sheet, &answer);
            lend_both(sheet, stores, &mut seen);
        }
        Err(NoMemory) => sheet.no_memory(),
    }
}

/// The same over a new store.
fn lend_from(sheet: &mut Sheet<'_>, access: &Access)
    requires legal { IsLegal access.now }
{
    match two_partitions(sheet.alloc()) {
        Ok(mut stores) => lend_after(sheet, &mut stores, access),
        Err(NoMemory) => sheet.no_memory(),
    }
}

/// What is lent after the access of a cell.
pub fn called(sheet: &mut Sheet<'_>) {
    let cell = sheet.cell();
    match access_of(sheet, cell) {
        Some(access) => lend_from(sheet, &access),
        None => sheet.misread(),
    }
}
