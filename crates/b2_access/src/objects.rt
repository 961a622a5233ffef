// What partitions share.
use b2_base::{Addr, Name8, Part, Term};

/// An object of the store that all partitions share.
#[derive(Clone, Copy)]
pub enum Object {
    /// The program text of a partition.
    Text(Part),
    /// Who stands inside the text of a partition.
    Borrow(Part),
    /// Who holds a name of global text.
    Name(Name8),
    /// The `@` variables of a partition.
    Globals(Part),
    /// A terminal.
    Terminal(Term),
    /// A printer.
    Printer(Addr),
    /// A platter.
    Platter(Addr),
    /// Which partition holds a device.
    Hog(Addr),
}
