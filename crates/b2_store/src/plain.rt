// The store in two lists: one of `@` variables, and one of all else, both walked from the front.
ghost use Rattle.std.specs.Prelude.{◌≡◌, ◌++◌, map, IfOk};
ghost use Rattle.b2_access.specs.Store.{StoreState};
ghost use Rattle.b2_store.specs.Kept.{hog_item, inside_item, platter_item, printer_item, terminal_item, text_item};

use crate::boot::StoreBoot;
use crate::ends::Ends;
use crate::insiders::Insiders;
use crate::kept_list::KeptList;
use crate::lenders::lender;
use crate::lookups::Lookups;
use crate::outside::{printed_of, put_in_front, queue_key};
use crate::rows::Rows;
use crate::serving::serve_access;
use crate::spared::Spared;
use crate::stores::{Devices, Homes, devices_at_start, homes_of};
use b2_access::{Access, Answer, At, Lent, Shared};
use b2_base::{Addr, Name8, NoMemory, Part, Term};
use b2_platter::Platter;
use b2_term::{KeyItem, Terminal};
use b2_text::Text;
use std::alloc::Global;

/// The store that all partitions share, in two lists: the `@` variables of partitions, with a spare last, and all other objects, each with
/// what it has. It means the rows of each kind in the order in which their items stand, by `plain_store`: all but the allocator.
#[derive(Drop)]
pub struct PlainStores {
    pub(crate) alloc: Global,
    pub(crate) globals: Spared,
    pub(crate) kept: KeptList,
}

/// The items of what a store starts with, but for `@` variables.
fn kept_of(
    alloc: Global,
    texts: Rows<Part, Text>,
    insides: Rows<Part, Insiders>,
    devices: Devices,
) -> Result<KeptList, NoMemory>
    ensures { IfOk result (λ l. l ≡ ((((map text_item texts ++ map inside_item insides) ++ map terminal_item devices.terminals) ++ map printer_item devices.printers) ++ map platter_item devices.platters) ++ map hog_item devices.hogs) }
{
    let Devices {
        terminals,
        printers,
        platters,
        hogs,
    } = devices;
    let mut kept = KeptList::new(alloc);
    kept.add_texts(texts)?;
    kept.add_insides(insides)?;
    kept.add_terminals(terminals)?;
    kept.add_printers(printers)?;
    kept.add_platters(platters)?;
    kept.add_hogs(hogs)?;
    Ok(kept)
}

impl Shared for PlainStores {
    ghost use Rattle.std.specs.Prelude.{refl};
    ghost use Rattle.b2_access.proofs.Leading.{answers_lead_to_holders, names_lead_to_who_asks};
    ghost use Rattle.b2_access.proofs.Locality.{serves_by_row, serves_is_local, serves_keeps_listed};
    ghost use Rattle.b2_access.specs.Serving.{itself};
    ghost use Rattle.b2_store.specs.DiskWork.{disks, serves};
    ghost use Rattle.b2_access.specs.Touching.{MayWantMemory};
    ghost use Rattle.b2_access.specs.Loans.{lends, notes_nothing};
    ghost use Rattle.b2_store.specs.Plain.{plain_store, after_loan as lent_and_ended, means_so};

    ghost Meaning = { StoreState };

    ghost meaning = { plain_store };

    ghost store = { itself };

    ghost serving = { serves };

    ghost wants = { MayWantMemory };

    ghost lending = { lends };

    ghost noting = { notes_nothing };

    ghost after_loan = { λ who home at s w. lent_and_ended home at s w };

    ghost Holds = { Unit {0} };

    ghost holds = { λ s. tt };

    fn lend(&mut self, who: Part, home: Part, at: &At) -> Lent<'_> {
        let lender = lender(self, home, at);
        let found = self.globals.has(&lender);
        let kept = &self.kept;
        Lent {
            own: kept.text_value(who),
            home: kept.text_value(home),
            globals: self.globals.lend(&lender),
            found,
            reached: false,
        }
    }

    fn note(&mut self, _who: Part, _home: Part, _at: &At) {}

    fn holder(&self, name: Name8) -> Option<Part> {
        self.name_holder(name)
    }

    fn serve(&mut self, who: Part, access: &Access) -> Result<Answer, NoMemory> {
        serve_access(self, who, access)
    }

    ghost local = { serves_is_local disks };

    ghost answers_by_row = { serves_by_row disks };

    ghost answers_lead = { answers_lead_to_holders disks };

    ghost names_lead = { names_lead_to_who_asks disks };

    ghost keeps_listed = { serves_keeps_listed disks };

    ghost loans = { λ who home at s w. means_so home at s w };

    ghost loan_holds = { λ who home at s w. refl };

    ghost notes = { λ who home at m left. refl };

    ghost lends_globals = { λ who home at m w. refl };

    ghost lends_texts_again = { λ who home m. refl };
}

impl Ends for PlainStores {
    ghost use Rattle.std.specs.Prelude.{refl};

    fn new(alloc: Global, b: &StoreBoot, platters: Vec<Platter>) -> Result<PlainStores, NoMemory> {
        let Homes {
            texts,
            borrows,
            globals,
        } = homes_of(alloc, b)?;
        let devices = devices_at_start(alloc, b, platters)?;
        let kept = kept_of(alloc, texts, borrows, devices)?;
        Ok(PlainStores {
            alloc,
            globals,
            kept,
        })
    }

    fn terminal(&self, t: Term) -> Option<&Terminal> {
        self.terminal_at(t)
    }

    fn printer(&self, a: Addr) -> Option<&[u8]> {
        printed_of(self, a)
    }

    fn platter(&self, a: Addr) -> Option<&Platter> {
        self.platter_at(a)
    }

    fn key(&mut self, t: Term, k: KeyItem) -> Option<bool> {
        queue_key(self, t, k)
    }

    fn set_front(&mut self, t: Term, p: Part) {
        put_in_front(self, t, p);
    }

    ghost serves_plainly = { λ m who a. refl };
}
