// Objects with what they have, in a list that is walked from the front.
ghost use Rattle.std.specs.Prelude.{◌≡◌, ◌∷◌, [], ◌++◌, Ok, Some, IsSome, OnOk, IfErr, OnErr, map, position, option_copied};
ghost use Rattle.std.specs.Option.{option_copied_mut};
ghost use Rattle.std.specs.Borrow.{sem, LendsIf};
ghost use Rattle.b2_store.specs.Kept.{first_content, first_kept, hog_item, inside_item, is_kept, platter_item, printer_item, terminal_item, text_item, with_first, with_first_content, with_name};
ghost use Rattle.b2_store.specs.Work.{IsOther, WorkFails, items_worked};
ghost use Rattle.b2_store.specs.contracts.kept_item.Kept.{the_row as kept_row};
ghost use Rattle.b2_store.specs.contracts.kept_list.KeptList.{the_row};

use crate::insiders::Insiders;
use crate::kept_item::Kept;
use crate::printer::Printer;
use crate::rows::Rows;
use crate::work::{Work, work_on};
use b2_access::Object;
use b2_base::{Addr, Fault, Name8, NoMemory, Part, Term};
use b2_platter::Platter;
use b2_term::Terminal;
use b2_text::Text;
use std::alloc::Global;
use std::marker::Model;

/// Objects with what they have. Contracts see the list of the items.
#[derive(Drop)]
pub struct KeptList {
    items: Vec<Kept>,
}

impl Model for KeptList {
    ghost use Rattle.std.specs.Prelude.{List};
    ghost use Rattle.b2_store.specs.declared.kept_item.Kept.{Kept};
    ghost use Rattle.std.specs.Coded.{codes};
    ghost use Rattle.b2_vars.specs.Tables.{coded_vars};

    ghost Value = { List Kept };

    ghost view = { λ l. l.items.items };
}

/// The index of the first item of an object, None where it isn't listed.
fn kept_index(items: &[Kept], o: &Object) -> Option<usize>
    ensures { result ≡ position (is_kept o.now) items.now }
{
    items.iter().position(|item| item.is(o))
}

/// Does a work between the items of two objects: the one that is read is taken out, the other is changed in its place, and the first is put
/// back where it was.
fn work_between(
    alloc: Global,
    items: &mut Vec<Kept>,
    work: &Work,
    read: &Object,
    changed: &Object,
) -> Result<(), Fault>
    requires read { IsSome (first_kept (is_kept read.now) items.old.items) }
    requires there { IsSome (first_kept (is_kept changed.now) items.old.items) }
    requires apart { IsOther read.now changed.now }
    ensures ok { OnOk result (items_worked work.now read.now changed.now items.old.items ≡ Ok items.new.items) }
    ensures fails { IfErr result (WorkFails work.now (items_worked work.now read.now changed.now items.old.items)) }
    ensures kept { OnErr result (items.new.items ≡ items.old.items) }
{
    let i = kept_index(items, read).unwrap();
    let taken = items.remove(i);
    let j = kept_index(items, changed).unwrap();
    let other = &mut items[j];
    let result = work_on(alloc, work, &taken, other);
    items.insert(i, taken).unwrap();
    result
}

impl KeptList {
    /// No items. It takes no memory.
    pub fn new(alloc: Global) -> KeptList
        ensures { result ≡ [] }
    {
        KeptList {
            items: Vec::new(alloc),
        }
    }

    /// Adds an item after the others.
    fn add(&mut self, item: Kept) -> Result<(), NoMemory>
        ensures { OnOk result (self.new ≡ self.old ++ item ∷ []) }
    {
        self.items.push(item)?;
        Ok(())
    }

    /// The first item of an object, None where it isn't listed.
    fn item(&self, o: &Object) -> Option<&Kept>
        ensures { option_copied result ≡ first_kept (is_kept o.now) self.now }
    {
        match kept_index(&self.items, o) {
            Some(index) => Some(&self.items[index]),
            None => None,
        }
    }

    /// The same, to be changed.
    pub fn item_mut(&mut self, o: &Object) -> Option<&mut Kept>
        ensures* writes_back { sem 𝓛 (LendsIf the_row kept_row self.entry result (with_first (is_kept o.now) self.entry.now) self.entry.now) }
        ensures there { option_copied_mut result ≡ first_kept (is_kept o.now) self.old }
    {
        match kept_index(&self.items, o) {
            Some(index) => {
                let row = &mut self.items[index];
                Some(row)
            }
            None => None,
        }
    }

    /// The text of a partition.
    pub fn text(&self, p: Part) -> Option<&Text>
        ensures { option_copied result ≡ first_content (Object.Text p) self.now }
    {
        match self.item(&Object::Text(p)) {
            Some(item) => item.text(),
            None => None,
        }
    }

    /// The same, where it is listed.
    pub fn text_value(&self, p: Part) -> &Text
        requires { IsSome (first_content (Object.Text p) self.now) }
        ensures { Some result.now ≡ first_content (Object.Text p) self.now }
    {
        self.text(p).unwrap()
    }

    /// Who stands inside the text of a partition.
    pub fn inside(&self, p: Part) -> Option<&Insiders>
        ensures { option_copied result ≡ first_content (Object.Borrow p) self.now }
    {
        match self.item(&Object::Borrow(p)) {
            Some(item) => item.inside(),
            None => None,
        }
    }

    /// A terminal.
    pub fn terminal(&self, t: Term) -> Option<&Terminal>
        ensures { option_copied result ≡ first_content (Object.Terminal t) self.now }
    {
        match self.item(&Object::Terminal(t)) {
            Some(item) => item.terminal(),
            None => None,
        }
    }

    /// A printer.
    pub fn printer(&self, a: Addr) -> Option<&Printer>
        ensures { option_copied result ≡ first_content (Object.Printer a) self.now }
    {
        match self.item(&Object::Printer(a)) {
            Some(item) => item.printer(),
            None => None,
        }
    }

    /// A platter.
    pub fn platter(&self, a: Addr) -> Option<&Platter>
        ensures { option_copied result ≡ first_content (Object.Platter a) self.now }
    {
        match self.item(&Object::Platter(a)) {
            Some(item) => item.platter(),
            None => None,
        }
    }

    /// Who holds a device.
    pub fn hog(&self, a: Addr) -> Option<Option<Part>>
        ensures { result ≡ first_content (Object.Hog a) self.now }
    {
        match self.item(&Object::Hog(a)) {
            Some(item) => item.holder(),
            None => None,
        }
    }

    /// Who holds a name, None where it has no item.
    pub fn name(&self, n: Name8) -> Option<Option<Part>>
        ensures { result ≡ first_content (Object.Name n) self.now }
    {
        match self.item(&Object::Name(n)) {
            Some(item) => item.holder(),
            None => None,
        }
    }

    /// A device has another holder, where it is listed.
    #[tactic(auto, using(crate::proofs::KeptItems::hog_changed, crate::proofs::KeptItems::hog_unlisted))]
    pub fn set_hog(&mut self, a: Addr, holder: Option<Part>)
        ensures { self.new ≡ with_first_content (Object.Hog a) self.old holder }
    {
        if let Some(item) = self.item_mut(&Object::Hog(a)) {
            item.set_holder(holder);
        }
    }

    /// A name has another holder, where it has an item.
    #[tactic(auto, using(crate::proofs::KeptItems::name_changed, crate::proofs::KeptItems::name_unlisted))]
    pub fn set_known(&mut self, n: Name8, holder: Option<Part>)
        ensures { self.new ≡ with_first_content (Object.Name n) self.old holder }
    {
        if let Some(item) = self.item_mut(&Object::Name(n)) {
            item.set_holder(holder);
        }
    }

    /// A name has another holder, in one more item where it has none.
    pub fn set_name(&mut self, n: Name8, holder: Option<Part>) -> Result<(), NoMemory>
        ensures { OnOk result (self.new ≡ with_name n self.old holder) }
    {
        match self.name(n) {
            Some(_old) => {
                self.set_known(n, holder);
                Ok(())
            }
            None => self.add(Kept::Name(n, holder)),
        }
    }

    /// Does a work between the items of two objects; nothing where one of them isn't listed.
    pub fn work(
        &mut self,
        alloc: Global,
        work: &Work,
        read: &Object,
        changed: &Object,
    ) -> Result<(), Fault>
        requires apart { IsOther read.now changed.now }
        ensures ok { OnOk result (items_worked work.now read.now changed.now self.old ≡ Ok self.new) }
        ensures fails { IfErr result (WorkFails work.now (items_worked work.now read.now changed.now self.old)) }
        ensures kept { OnErr result (self.new ≡ self.old) }
    {
        let Some(_read) = self.item(read) else {
            return Ok(());
        };
        let Some(_changed) = self.item(changed) else {
            return Ok(());
        };
        work_between(alloc, &mut self.items, work, read, changed)
    }

    /// Adds the texts of rows.
    pub fn add_texts(&mut self, rows: Rows<Part, Text>) -> Result<(), NoMemory>
        ensures { OnOk result (self.new ≡ self.old ++ map text_item rows) }
    {
        for row in rows.rows {
            self.add(Kept::Text(row.0, row.1))?;
        }
        Ok(())
    }

    /// Adds those who stand inside texts.
    pub fn add_insides(&mut self, rows: Rows<Part, Insiders>) -> Result<(), NoMemory>
        ensures { OnOk result (self.new ≡ self.old ++ map inside_item rows) }
    {
        for row in rows.rows {
            self.add(Kept::Borrow(row.0, row.1))?;
        }
        Ok(())
    }

    /// Adds terminals.
    pub fn add_terminals(&mut self, rows: Rows<Term, Terminal>) -> Result<(), NoMemory>
        ensures { OnOk result (self.new ≡ self.old ++ map terminal_item rows) }
    {
        for row in rows.rows {
            self.add(Kept::Terminal(row.0, row.1))?;
        }
        Ok(())
    }

    /// Adds printers.
    pub fn add_printers(&mut self, rows: Rows<Addr, Printer>) -> Result<(), NoMemory>
        ensures { OnOk result (self.new ≡ self.old ++ map printer_item rows) }
    {
        for row in rows.rows {
            self.add(Kept::Printer(row.0, row.1))?;
        }
        Ok(())
    }

    /// Adds platters.
    pub fn add_platters(&mut self, rows: Rows<Addr, Platter>) -> Result<(), NoMemory>
        ensures { OnOk result (self.new ≡ self.old ++ map platter_item rows) }
    {
        for row in rows.rows {
            self.add(Kept::Platter(row.0, row.1))?;
        }
        Ok(())
    }

    /// Adds who holds devices.
    pub fn add_hogs(&mut self, rows: Rows<Addr, Option<Part>>) -> Result<(), NoMemory>
        ensures { OnOk result (self.new ≡ self.old ++ map hog_item rows) }
    {
        for row in rows.rows {
            self.add(Kept::Hog(row.0, row.1))?;
        }
        Ok(())
    }
}
