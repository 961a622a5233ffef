// An object with what it has.
ghost use Rattle.std.specs.Prelude.{◌≡◌, option_copied};
ghost use Rattle.std.specs.Option.{option_copied_mut};
ghost use Rattle.std.specs.Borrow.{sem, LendsIf};
ghost use Rattle.b2_platter.specs.contracts.platter.Platter.{the_row as platter_row};
ghost use Rattle.b2_term.specs.contracts.Terminal.{the_row as terminal_row};
ghost use Rattle.b2_text.specs.contracts.text.Text.{the_row as text_row};
ghost use Rattle.b2_store.specs.Kept as spec;
ghost use Rattle.b2_store.specs.contracts.kept_item.Kept.{the_row};
ghost use Rattle.b2_store.specs.contracts.insiders.Insiders.{the_row as parts_row};
ghost use Rattle.b2_store.specs.contracts.printer.Printer.{the_row as printer_row};

use crate::insiders::Insiders;
use crate::printer::Printer;
use b2_access::Object;
use b2_base::{Addr, Name8, Part, Term};
use b2_platter::Platter;
use b2_term::Terminal;
use b2_text::Text;

/// An object with what it has: its kind says what that is.
#[derive(Drop)]
pub enum Kept {
    /// The text of a partition.
    Text(Part, Text),
    /// Who stands inside the text of a partition.
    Borrow(Part, Insiders),
    /// A terminal.
    Terminal(Term, Terminal),
    /// A printer.
    Printer(Addr, Printer),
    /// A platter.
    Platter(Addr, Platter),
    /// Who holds a device.
    Hog(Addr, Option<Part>),
    /// Who holds a name.
    Name(Name8, Option<Part>),
}

impl Kept {
    /// Whether it is the text of a partition.
    fn is_text(&self, p: Part) -> bool
        ensures { result ≡ spec.is_kept (Object.Text p) self.now }
    {
        match self {
            Kept::Text(q, _) => *q == p,
            _ => false,
        }
    }

    /// Whether it is who stands inside the text of a partition.
    fn is_borrow(&self, p: Part) -> bool
        ensures { result ≡ spec.is_kept (Object.Borrow p) self.now }
    {
        match self {
            Kept::Borrow(q, _) => *q == p,
            _ => false,
        }
    }

    /// Whether it is a terminal.
    fn is_terminal(&self, t: Term) -> bool
        ensures { result ≡ spec.is_kept (Object.Terminal t) self.now }
    {
        match self {
            Kept::Terminal(u, _) => u.number() == t.number(),
            _ => false,
        }
    }

    /// Whether it is the printer at an address.
    fn is_printer(&self, a: Addr) -> bool
        ensures { result ≡ spec.is_kept (Object.Printer a) self.now }
    {
        match self {
            Kept::Printer(b, _) => *b == a,
            _ => false,
        }
    }

    /// Whether it is the platter at an address.
    fn is_platter(&self, a: Addr) -> bool
        ensures { result ≡ spec.is_kept (Object.Platter a) self.now }
    {
        match self {
            Kept::Platter(b, _) => *b == a,
            _ => false,
        }
    }

    /// Whether it is who holds a device.
    fn is_hog(&self, a: Addr) -> bool
        ensures { result ≡ spec.is_kept (Object.Hog a) self.now }
    {
        match self {
            Kept::Hog(b, _) => *b == a,
            _ => false,
        }
    }

    /// Whether it is who holds a name.
    fn is_name(&self, n: Name8) -> bool
        ensures { result ≡ spec.is_kept (Object.Name n) self.now }
    {
        match self {
            Kept::Name(m, _) => *m == n,
            _ => false,
        }
    }

    /// Whether it is an object.
    pub fn is(&self, o: &Object) -> bool
        ensures { result ≡ spec.is_kept o.now self.now }
    {
        match o {
            Object::Text(p) => self.is_text(*p),
            Object::Borrow(p) => self.is_borrow(*p),
            Object::Name(n) => self.is_name(*n),
            Object::Globals(_) => false,
            Object::Terminal(t) => self.is_terminal(*t),
            Object::Printer(a) => self.is_printer(*a),
            Object::Platter(a) => self.is_platter(*a),
            Object::Hog(a) => self.is_hog(*a),
        }
    }

    /// The text, where it is one.
    pub fn text(&self) -> Option<&Text>
        ensures { option_copied result ≡ spec.text_in self.now }
    {
        match self {
            Kept::Text(_, text) => Some(text),
            _ => None,
        }
    }

    /// The same, to be changed.
    pub fn text_mut(&mut self) -> Option<&mut Text>
        ensures* writes_back { sem 𝓛 (LendsIf the_row text_row self.entry result (spec.with_text self.entry.now) self.entry.now) }
        ensures there { option_copied_mut result ≡ spec.text_in self.old }
    {
        match self {
            Kept::Text(_, text) => Some(text),
            _ => None,
        }
    }

    /// Who stands inside a text, where it is that.
    pub fn inside(&self) -> Option<&Insiders>
        ensures { option_copied result ≡ spec.inside_in self.now }
    {
        match self {
            Kept::Borrow(_, parts) => Some(parts),
            _ => None,
        }
    }

    /// The same, to be changed.
    pub fn inside_mut(&mut self) -> Option<&mut Insiders>
        ensures* writes_back { sem 𝓛 (LendsIf the_row parts_row self.entry result (spec.with_inside self.entry.now) self.entry.now) }
        ensures there { option_copied_mut result ≡ spec.inside_in self.old }
    {
        match self {
            Kept::Borrow(_, parts) => Some(parts),
            _ => None,
        }
    }

    /// The terminal, where it is one.
    pub fn terminal(&self) -> Option<&Terminal>
        ensures { option_copied result ≡ spec.terminal_in self.now }
    {
        match self {
            Kept::Terminal(_, terminal) => Some(terminal),
            _ => None,
        }
    }

    /// The same, to be changed.
    pub fn terminal_mut(&mut self) -> Option<&mut Terminal>
        ensures* writes_back { sem 𝓛 (LendsIf the_row terminal_row self.entry result (spec.with_terminal self.entry.now) self.entry.now) }
        ensures there { option_copied_mut result ≡ spec.terminal_in self.old }
    {
        match self {
            Kept::Terminal(_, terminal) => Some(terminal),
            _ => None,
        }
    }

    /// The printer, where it is one.
    pub fn printer(&self) -> Option<&Printer>
        ensures { option_copied result ≡ spec.printer_in self.now }
    {
        match self {
            Kept::Printer(_, printer) => Some(printer),
            _ => None,
        }
    }

    /// The same, to be changed.
    pub fn printer_mut(&mut self) -> Option<&mut Printer>
        ensures* writes_back { sem 𝓛 (LendsIf the_row printer_row self.entry result (spec.with_printer self.entry.now) self.entry.now) }
        ensures there { option_copied_mut result ≡ spec.printer_in self.old }
    {
        match self {
            Kept::Printer(_, printer) => Some(printer),
            _ => None,
        }
    }

    /// The platter, where it is one.
    pub fn platter(&self) -> Option<&Platter>
        ensures { option_copied result ≡ spec.platter_in self.now }
    {
        match self {
            Kept::Platter(_, platter) => Some(platter),
            _ => None,
        }
    }

    /// The same, to be changed.
    pub fn platter_mut(&mut self) -> Option<&mut Platter>
        ensures* writes_back { sem 𝓛 (LendsIf the_row platter_row self.entry result (spec.with_platter self.entry.now) self.entry.now) }
        ensures there { option_copied_mut result ≡ spec.platter_in self.old }
    {
        match self {
            Kept::Platter(_, platter) => Some(platter),
            _ => None,
        }
    }

    /// Who holds the device or the name, where it is one of these.
    pub fn holder(&self) -> Option<Option<Part>>
        ensures { result ≡ spec.holder_in self.now }
    {
        match self {
            Kept::Hog(_, holder) | Kept::Name(_, holder) => Some(*holder),
            _ => None,
        }
    }

    /// The device or the name has another holder, where it is one of these.
    pub fn set_holder(&mut self, new: Option<Part>)
        ensures { self.new ≡ spec.with_holder self.old new }
    {
        match self {
            Kept::Hog(_, holder) => *holder = new,
            Kept::Name(_, holder) => *holder = new,
            _ => {}
        }
    }
}
