// The store in rows: how it starts, what is lent of it, and its ends.
ghost use Rattle.std.specs.Prelude.{◌≡◌, ◌++◌, map, length, true, IfOk};
ghost use Rattle.std.specs.List.{list_all};
ghost use Rattle.b2_access.specs.Store.{StoreState};
ghost use Rattle.b2_store.specs.Start.{text_row, borrow_row, globals_row, has_order, idle_row, blank_row, free_row, with_keys};

use crate::boot::StoreBoot;
use crate::ends::Ends;
use crate::insiders::Insiders;
use crate::lenders::lender;
use crate::lookups::Lookups;
use crate::names::Names;
use crate::outside::{printed_of, put_in_front, queue_key};
use crate::printer::Printer;
use crate::rows::Rows;
use crate::serving::serve_access;
use crate::spared::Spared;
use crate::start::{
    borrows_of, globals_of, holders_of, platters_of, printers_of, terminals_of, texts_of,
};
use b2_access::{Access, Answer, At, Lent, Shared};
use b2_base::{Addr, Name8, NoMemory, Part, Term};
use b2_platter::Platter;
use b2_term::{KeyItem, Terminal};
use b2_text::Text;
use b2_vars::Vars;
use std::alloc::Global;

/// The store that all partitions share. It means its rows, by `store_of`: all but the allocator.
#[derive(Drop)]
pub struct Stores {
    pub(crate) alloc: Global,
    pub(crate) texts: Rows<Part, Text>,
    pub(crate) borrows: Rows<Part, Insiders>,
    pub(crate) globals: Spared,
    pub(crate) terminals: Rows<Term, Terminal>,
    pub(crate) printers: Rows<Addr, Printer>,
    pub(crate) platters: Rows<Addr, Platter>,
    // Who holds each device.
    pub(crate) hogs: Rows<Addr, Option<Part>>,
    pub(crate) names: Names,
}

/// What belongs to partitions at the start.
#[derive(Drop)]
pub(crate) struct Homes {
    pub(crate) texts: Rows<Part, Text>,
    pub(crate) borrows: Rows<Part, Insiders>,
    pub(crate) globals: Spared,
}

/// The devices at the start.
#[derive(Drop)]
pub(crate) struct Devices {
    pub(crate) terminals: Rows<Term, Terminal>,
    pub(crate) printers: Rows<Addr, Printer>,
    pub(crate) platters: Rows<Addr, Platter>,
    pub(crate) hogs: Rows<Addr, Option<Part>>,
}

/// What belongs to the partitions of a boot at the start.
pub(crate) fn homes_of(alloc: Global, b: &StoreBoot) -> Result<Homes, NoMemory>
    ensures texts { IfOk result (λ h. h.texts ≡ map text_row b.now.partitions.items) }
    ensures borrows { IfOk result (λ h. h.borrows ≡ map borrow_row b.now.partitions.items) }
    ensures globals { IfOk result (λ h. h.globals ≡ map globals_row b.now.partitions.items) }
{
    let texts = texts_of(alloc, &b.partitions)?;
    let borrows = borrows_of(alloc, &b.partitions)?;
    let globals = Spared::new(globals_of(alloc, &b.partitions)?, Vars::new(alloc, 0)?)?;
    Ok(Homes {
        texts,
        borrows,
        globals,
    })
}

/// The devices of a boot at the start, with these platters.
pub(crate) fn devices_at_start(
    alloc: Global,
    b: &StoreBoot,
    platters: Vec<Platter>,
) -> Result<Devices, NoMemory>
    requires as_many { length b.now.platters.items ≡ length platters.items }
    requires orders { list_all has_order b.now.terminals.items ≡ true }
    ensures terminals { IfOk result (λ d. d.terminals ≡ map idle_row b.now.terminals.items) }
    ensures printers { IfOk result (λ d. d.printers ≡ map blank_row b.now.printers.items) }
    ensures platters { IfOk result (λ d. d.platters ≡ with_keys b.now.platters.items platters.items) }
    ensures hogs { IfOk result (λ d. d.hogs ≡ map free_row b.now.printers.items ++ map free_row b.now.platters.items) }
{
    let terminals = terminals_of(alloc, &b.terminals)?;
    let printers = printers_of(alloc, &b.printers)?;
    let platters = platters_of(alloc, &b.platters, platters)?;
    let hogs = holders_of(alloc, &b.printers, &b.platters)?;
    Ok(Devices {
        terminals,
        printers,
        platters,
        hogs,
    })
}

impl Shared for Stores {
    ghost use Rattle.std.specs.Prelude.{refl};
    ghost use Rattle.b2_access.proofs.Leading.{answers_lead_to_holders, names_lead_to_who_asks};
    ghost use Rattle.b2_access.proofs.Locality.{serves_by_row, serves_is_local, serves_keeps_listed};
    ghost use Rattle.b2_access.specs.Serving.{itself};
    ghost use Rattle.b2_store.specs.DiskWork.{disks, serves};
    ghost use Rattle.b2_access.specs.Touching.{MayWantMemory};
    ghost use Rattle.b2_access.specs.Loans.{lends, notes_nothing};
    ghost use Rattle.b2_store.specs.Meaning.{store_of, after_loan as lent_and_ended, means_so};

    ghost Meaning = { StoreState };

    ghost meaning = { store_of };

    ghost store = { itself };

    ghost serving = { serves };

    ghost wants = { MayWantMemory };

    ghost lending = { lends };

    ghost noting = { notes_nothing };

    ghost after_loan = { λ who home at s w. lent_and_ended home at s w };

    ghost Holds = { Unit {0} };

    ghost holds = { λ s. tt };

    fn lend(&mut self, who: Part, home: Part, at: &At) -> Lent<'_> {
        let lender = lender(self, home, at);
        let found = self.globals.has(&lender);
        let texts = &self.texts;
        Lent {
            own: texts.value(who),
            home: texts.value(home),
            globals: self.globals.lend(&lender),
            found,
            reached: false,
        }
    }

    fn note(&mut self, _who: Part, _home: Part, _at: &At) {}

    fn holder(&self, name: Name8) -> Option<Part> {
        self.names.holder(name)
    }

    fn serve(&mut self, who: Part, access: &Access) -> Result<Answer, NoMemory> {
        serve_access(self, who, access)
    }

    ghost local = { serves_is_local disks };

    ghost answers_by_row = { serves_by_row disks };

    ghost answers_lead = { answers_lead_to_holders disks };

    ghost names_lead = { names_lead_to_who_asks disks };

    ghost keeps_listed = { serves_keeps_listed disks };

    ghost loans = { λ who home at s w. means_so home at s w };

    ghost loan_holds = { λ who home at s w. refl };

    ghost notes = { λ who home at m left. refl };

    ghost lends_globals = { λ who home at m w. refl };

    ghost lends_texts_again = { λ who home m. refl };
}

impl Ends for Stores {
    ghost use Rattle.std.specs.Prelude.{refl};

    fn new(alloc: Global, b: &StoreBoot, platters: Vec<Platter>) -> Result<Stores, NoMemory> {
        let homes = homes_of(alloc, b)?;
        let devices = devices_at_start(alloc, b, platters)?;
        Ok(Stores {
            alloc,
            texts: homes.texts,
            borrows: homes.borrows,
            globals: homes.globals,
            terminals: devices.terminals,
            printers: devices.printers,
            platters: devices.platters,
            hogs: devices.hogs,
            names: Names::new(alloc),
        })
    }

    fn terminal(&self, t: Term) -> Option<&Terminal> {
        self.terminal_at(t)
    }

    fn printer(&self, a: Addr) -> Option<&[u8]> {
        printed_of(self, a)
    }

    fn platter(&self, a: Addr) -> Option<&Platter> {
        self.platter_at(a)
    }

    fn key(&mut self, t: Term, k: KeyItem) -> Option<bool> {
        queue_key(self, t, k)
    }

    fn set_front(&mut self, t: Term, p: Part) {
        put_in_front(self, t, p);
    }

    ghost serves_plainly = { λ m who a. refl };
}
