// What a store is looked up by, of whatever make: what an object has by its key, to be read and to be changed.
ghost use Rattle.std.specs.Prelude.{◌≡◌, ◌≢◌, ℕ, Some, None, OnOk, IfOk, IfErr, option_copied};
ghost use Rattle.std.specs.Option.{option_copied_mut};
ghost use Rattle.std.specs.Borrow.{sem, LendsIf};
ghost use Rattle.b2_access.specs.declared.objects.Object.{Object as ObjectSpec};
ghost use Rattle.b2_access.specs.Store.{StoreState, ContentOf, content, holder_of, put};
ghost use Rattle.b2_platter.specs.contracts.platter.Platter.{the_row as platter_row};
ghost use Rattle.b2_term.specs.contracts.Terminal.{the_row as terminal_row};
ghost use Rattle.b2_text.specs.contracts.text.Text.{the_row as text_row};
ghost use Rattle.b2_store.specs.contracts.insiders.Insiders.{the_row as parts_row};
ghost use Rattle.b2_store.specs.contracts.printer.Printer.{the_row as printer_row};
ghost use Rattle.b2_store.specs.Asked.{moving};
ghost use Rattle.b2_store.specs.Cleared.{globals_cleared};
ghost use Rattle.b2_store.specs.Doing.{Does};
ghost use Rattle.b2_store.specs.Names.{freed};

use crate::insiders::Insiders;
use crate::printer::Printer;
use b2_access::{Access, Answer, Object};
use b2_base::{Addr, Name8, NoMemory, Part, Term};
use b2_platter::Platter;
use b2_term::Terminal;
use b2_text::Text;
use std::alloc::Global;

/// A store that is looked up by the keys of objects. What isn't listed is None, and stays so.
pub trait Lookups {
    /// The store that it means.
    ghost state: { Self → StoreState };

    /// What it is with another content of an object.
    ghost changed: { (o : ObjectSpec) → Self → ContentOf o → Self };

    /// The allocator that it was made with.
    fn allocator(&self) -> Global;

    /// The text of a partition.
    fn text(&self, p: Part) -> Option<&Text>
        ensures found { option_copied result ≡ content (state self.now) (Object.Text p) };

    /// The same, to be changed.
    fn text_mut(&mut self, p: Part) -> Option<&mut Text>
        ensures* writes_back { sem 𝓛 (LendsIf Self.row text_row self.entry result (changed (Object.Text p) self.entry.now) self.entry.now) }
        ensures found { option_copied_mut result ≡ content (state self.old) (Object.Text p) };

    /// Who stands inside the text of a partition.
    fn inside(&self, p: Part) -> Option<&Insiders>
        ensures found { option_copied result ≡ content (state self.now) (Object.Borrow p) };

    /// The same, to be changed.
    fn inside_mut(&mut self, p: Part) -> Option<&mut Insiders>
        ensures* writes_back { sem 𝓛 (LendsIf Self.row parts_row self.entry result (changed (Object.Borrow p) self.entry.now) self.entry.now) }
        ensures found { option_copied_mut result ≡ content (state self.old) (Object.Borrow p) };

    /// The `@` variables of a partition go, where it has some.
    fn clear_globals(&mut self, p: Part)
        ensures cleared { state self.new ≡ globals_cleared p (state self.old) };

    /// A terminal.
    fn terminal_at(&self, t: Term) -> Option<&Terminal>
        ensures found { option_copied result ≡ content (state self.now) (Object.Terminal t) };

    /// The same, to be changed.
    fn terminal_mut(&mut self, t: Term) -> Option<&mut Terminal>
        ensures* writes_back { sem 𝓛 (LendsIf Self.row terminal_row self.entry result (changed (Object.Terminal t) self.entry.now) self.entry.now) }
        ensures found { option_copied_mut result ≡ content (state self.old) (Object.Terminal t) };

    /// A printer.
    fn printer_at(&self, a: Addr) -> Option<&Printer>
        ensures found { option_copied result ≡ content (state self.now) (Object.Printer a) };

    /// The same, to be changed.
    fn printer_mut(&mut self, a: Addr) -> Option<&mut Printer>
        ensures* writes_back { sem 𝓛 (LendsIf Self.row printer_row self.entry result (changed (Object.Printer a) self.entry.now) self.entry.now) }
        ensures found { option_copied_mut result ≡ content (state self.old) (Object.Printer a) };

    /// A platter.
    fn platter_at(&self, a: Addr) -> Option<&Platter>
        ensures found { option_copied result ≡ content (state self.now) (Object.Platter a) };

    /// The same, to be changed.
    fn platter_mut(&mut self, a: Addr) -> Option<&mut Platter>
        ensures* writes_back { sem 𝓛 (LendsIf Self.row platter_row self.entry result (changed (Object.Platter a) self.entry.now) self.entry.now) }
        ensures found { option_copied_mut result ≡ content (state self.old) (Object.Platter a) };

    /// Who holds a device.
    fn hog(&self, a: Addr) -> Option<Option<Part>>
        ensures found { result ≡ content (state self.now) (Object.Hog a) };

    /// A device has another holder, where it is listed.
    fn set_hog(&mut self, a: Addr, holder: Option<Part>)
        ensures set { state self.new ≡ put (Object.Hog a) holder (state self.old) };

    /// Who holds a name, None where nobody does.
    fn name_holder(&self, name: Name8) -> Option<Part>
        ensures held { result ≡ holder_of (state self.now) name };

    /// A name has another holder. It wants memory where the name was never held.
    fn set_name(&mut self, name: Name8, holder: Option<Part>) -> Result<(), NoMemory>
        ensures set { OnOk result (state self.new ≡ put (Object.Name name) holder (state self.old)) };

    /// Nobody holds a name any more, where one did.
    fn free_name(&mut self, name: Name8)
        ensures freed { state self.new ≡ freed name (state self.old) };

    /// Saves lines of the text of a partition as a program: a platter is changed while a text is read.
    fn save_program(
        &mut self,
        who: Part,
        addr: Addr,
        old: Option<Name8>,
        name: Name8,
        from: u16,
        to: u16,
    ) -> Result<Answer, NoMemory>
        ensures saved { IfOk result (Does who (Access.SaveProgram addr old name from to) (state self.old) (state self.new)) };

    /// Loads the lines of a program into the text of a partition: the text is changed while a platter is read.
    fn load_own(
        &mut self,
        who: Part,
        addr: Addr,
        name: Name8,
        replace: bool,
    ) -> Result<Answer, NoMemory>
        ensures loaded { IfOk result (Does who (Access.LoadProgram addr name replace None 0) (state self.old) (state self.new)) };

    /// Moves the file of a name to another platter, or all live files; nothing where one of the two isn't listed.
    fn move_files(&mut self, from: Addr, to: Addr, name: Option<Name8>) -> Result<Answer, NoMemory>
        requires apart { from ≢ to }
        ensures done { (who : ℕ) → IfOk result (Does who (moving from name to) (state self.old) (state self.new)) }
        ensures memory { IfErr result (λ _. name ≡ None) };

    /// With another content of an object it means what a store is then.
    ghost puts: { (o : ObjectSpec) (s : Self) (c : ContentOf o) → state (changed o s c) ≡ put o c (state s) };
}
