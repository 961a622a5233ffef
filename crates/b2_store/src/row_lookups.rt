// The look-ups of a store that is kept in rows.
ghost use Rattle.std.specs.Prelude.{◌≡◌, ◌≢◌, ℕ, None, IfOk, IfErr};

use crate::insiders::Insiders;
use crate::lookups::Lookups;
use crate::printer::Printer;
use crate::programs::{load_text, save_text};
use crate::refusals::refusal;
use crate::stores::Stores;
use b2_access::Answer;
use b2_base::{Addr, Name8, NoMemory, Part, Term};
use b2_platter::Platter;
use b2_term::Terminal;
use b2_text::Text;
use std::alloc::Global;

impl Lookups for Stores {
    ghost use Rattle.b2_store.specs.Meaning.{means_put, store_of, with_content};

    ghost state = { store_of };

    ghost changed = { λ o s c. with_content o s c };

    fn allocator(&self) -> Global {
        self.alloc
    }

    fn text(&self, p: Part) -> Option<&Text> {
        self.texts.get(p)
    }

    fn text_mut(&mut self, p: Part) -> Option<&mut Text> {
        self.texts.get_mut(p)
    }

    fn inside(&self, p: Part) -> Option<&Insiders> {
        self.borrows.get(p)
    }

    fn inside_mut(&mut self, p: Part) -> Option<&mut Insiders> {
        self.borrows.get_mut(p)
    }

    fn clear_globals(&mut self, p: Part) {
        let owner = Some(p);
        if self.globals.has(&owner) {
            self.globals.lend(&owner).clear();
        }
    }

    fn terminal_at(&self, t: Term) -> Option<&Terminal> {
        self.terminals.get(t)
    }

    fn terminal_mut(&mut self, t: Term) -> Option<&mut Terminal> {
        self.terminals.get_mut(t)
    }

    fn printer_at(&self, a: Addr) -> Option<&Printer> {
        self.printers.get(a)
    }

    fn printer_mut(&mut self, a: Addr) -> Option<&mut Printer> {
        self.printers.get_mut(a)
    }

    fn platter_at(&self, a: Addr) -> Option<&Platter> {
        self.platters.get(a)
    }

    fn platter_mut(&mut self, a: Addr) -> Option<&mut Platter> {
        self.platters.get_mut(a)
    }

    fn hog(&self, a: Addr) -> Option<Option<Part>> {
        self.hogs.get(a).copied()
    }

    #[tactic(auto, using(crate::proofs::Same::with_none))]
    fn set_hog(&mut self, a: Addr, holder: Option<Part>) {
        if let Some(row) = self.hogs.get_mut(a) {
            *row = holder;
        }
    }

    fn name_holder(&self, name: Name8) -> Option<Part> {
        self.names.holder(name)
    }

    fn set_name(&mut self, name: Name8, holder: Option<Part>) -> Result<(), NoMemory> {
        self.names.set_holder(name, holder)?;
        Ok(())
    }

    fn free_name(&mut self, name: Name8) {
        self.names.free(name);
    }

    #[tactic(auto, using(crate::proofs::Same::with_same))]
    fn save_program(
        &mut self,
        who: Part,
        addr: Addr,
        old: Option<Name8>,
        name: Name8,
        from: u16,
        to: u16,
    ) -> Result<Answer, NoMemory> {
        let Some(platter) = self.platters.get_mut(addr) else {
            return Ok(Answer::Done);
        };
        let Some(text) = self.texts.get(who) else {
            return Ok(Answer::Done);
        };
        match save_text(self.alloc, platter, text, from, to, old, name) {
            Ok(()) => Ok(Answer::Done),
            Err(fault) => refusal(fault),
        }
    }

    #[tactic(auto, using(crate::proofs::Same::with_same))]
    fn load_own(
        &mut self,
        who: Part,
        addr: Addr,
        name: Name8,
        replace: bool,
    ) -> Result<Answer, NoMemory> {
        let Some(platter) = self.platters.get(addr) else {
            return Ok(Answer::Done);
        };
        let Some(text) = self.texts.get_mut(who) else {
            return Ok(Answer::Done);
        };
        match load_text(self.alloc, platter, name, text, replace) {
            Ok(()) => Ok(Answer::Done),
            Err(fault) => refusal(fault),
        }
    }

    #[tactic(auto, using(crate::proofs::Moves::apart_bytes))]
    fn move_files(
        &mut self,
        from: Addr,
        to: Addr,
        name: Option<Name8>,
    ) -> Result<Answer, NoMemory> {
        let Some(_source) = self.platters.get(from) else {
            return Ok(Answer::Done);
        };
        let Some(_target) = self.platters.get(to) else {
            return Ok(Answer::Done);
        };
        match self.platters.move_between(self.alloc, from, to, name) {
            Ok(()) => Ok(Answer::Done),
            Err(fault) => refusal(fault),
        }
    }

    ghost puts = { λ o s c. means_put o s c };
}
