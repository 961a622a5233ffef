// The look-ups of a store that is kept in two lists.
ghost use Rattle.std.specs.Prelude.{◌≡◌, ◌≢◌, ℕ, None, IfOk, IfErr};

use crate::insiders::Insiders;
use crate::lookups::Lookups;
use crate::plain::PlainStores;
use crate::printer::Printer;
use crate::refusals::refusal;
use crate::work::Work;
use b2_access::{Answer, Object};
use b2_base::{Addr, Name8, NoMemory, Part, Term};
use b2_platter::Platter;
use b2_term::Terminal;
use b2_text::Text;
use std::alloc::Global;

impl Lookups for PlainStores {
    ghost use Rattle.b2_store.specs.Plain.{means_put, plain_store, with_content};

    ghost state = { plain_store };

    ghost changed = { λ o s c. with_content o s c };

    fn allocator(&self) -> Global {
        self.alloc
    }

    fn text(&self, p: Part) -> Option<&Text> {
        self.kept.text(p)
    }

    fn text_mut(&mut self, p: Part) -> Option<&mut Text> {
        match self.kept.item_mut(&Object::Text(p)) {
            Some(item) => match item.text_mut() {
                Some(text) => Some(text),
                None => None,
            },
            None => None,
        }
    }

    fn inside(&self, p: Part) -> Option<&Insiders> {
        self.kept.inside(p)
    }

    fn inside_mut(&mut self, p: Part) -> Option<&mut Insiders> {
        match self.kept.item_mut(&Object::Borrow(p)) {
            Some(item) => match item.inside_mut() {
                Some(parts) => Some(parts),
                None => None,
            },
            None => None,
        }
    }

    fn clear_globals(&mut self, p: Part) {
        let owner = Some(p);
        if self.globals.has(&owner) {
            self.globals.lend(&owner).clear();
        }
    }

    fn terminal_at(&self, t: Term) -> Option<&Terminal> {
        self.kept.terminal(t)
    }

    fn terminal_mut(&mut self, t: Term) -> Option<&mut Terminal> {
        match self.kept.item_mut(&Object::Terminal(t)) {
            Some(item) => match item.terminal_mut() {
                Some(terminal) => Some(terminal),
                None => None,
            },
            None => None,
        }
    }

    fn printer_at(&self, a: Addr) -> Option<&Printer> {
        self.kept.printer(a)
    }

    fn printer_mut(&mut self, a: Addr) -> Option<&mut Printer> {
        match self.kept.item_mut(&Object::Printer(a)) {
            Some(item) => match item.printer_mut() {
                Some(printer) => Some(printer),
                None => None,
            },
            None => None,
        }
    }

    fn platter_at(&self, a: Addr) -> Option<&Platter> {
        self.kept.platter(a)
    }

    fn platter_mut(&mut self, a: Addr) -> Option<&mut Platter> {
        match self.kept.item_mut(&Object::Platter(a)) {
            Some(item) => match item.platter_mut() {
                Some(platter) => Some(platter),
                None => None,
            },
            None => None,
        }
    }

    fn hog(&self, a: Addr) -> Option<Option<Part>> {
        self.kept.hog(a)
    }

    fn set_hog(&mut self, a: Addr, holder: Option<Part>) {
        self.kept.set_hog(a, holder);
    }

    fn name_holder(&self, name: Name8) -> Option<Part> {
        match self.kept.name(name) {
            Some(holder) => holder,
            None => None,
        }
    }

    fn set_name(&mut self, name: Name8, holder: Option<Part>) -> Result<(), NoMemory> {
        self.kept.set_name(name, holder)?;
        Ok(())
    }

    fn free_name(&mut self, name: Name8) {
        self.kept.set_known(name, None);
    }

    fn save_program(
        &mut self,
        who: Part,
        addr: Addr,
        old: Option<Name8>,
        name: Name8,
        from: u16,
        to: u16,
    ) -> Result<Answer, NoMemory> {
        let work = Work::Save {
            old,
            name,
            from,
            to,
        };
        match self.kept.work(
            self.alloc,
            &work,
            &Object::Text(who),
            &Object::Platter(addr),
        ) {
            Ok(()) => Ok(Answer::Done),
            Err(fault) => refusal(fault),
        }
    }

    fn load_own(
        &mut self,
        who: Part,
        addr: Addr,
        name: Name8,
        replace: bool,
    ) -> Result<Answer, NoMemory> {
        let work = Work::Load { name, replace };
        match self.kept.work(
            self.alloc,
            &work,
            &Object::Platter(addr),
            &Object::Text(who),
        ) {
            Ok(()) => Ok(Answer::Done),
            Err(fault) => refusal(fault),
        }
    }

    fn move_files(
        &mut self,
        from: Addr,
        to: Addr,
        name: Option<Name8>,
    ) -> Result<Answer, NoMemory> {
        let work = Work::Move { name };
        match self.kept.work(
            self.alloc,
            &work,
            &Object::Platter(from),
            &Object::Platter(to),
        ) {
            Ok(()) => Ok(Answer::Done),
            Err(fault) => refusal(fault),
        }
    }

    ghost puts = { λ o s c. means_put o s c };
}
