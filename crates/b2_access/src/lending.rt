// What a partition is lent while one of its steps plans or finishes.
use b2_base::Name8;
use b2_text::Text;
use b2_vars::Vars;

/// Whose `@` variables a step wants.
#[derive(Clone, Copy)]
pub enum At {
    /// None.
    None,
    /// Those of its home.
    Home,
    /// Those of the partition that holds a name.
    Named(Name8),
}

/// Its own text and that of its home, to be read, and `@` variables, to be read and written. Where none are found, `globals`
/// is a spare that belongs to no object: nobody reads or writes it.
#[derive(Drop)]
pub struct Lent<'a> {
    /// The text of the partition.
    pub own: &'a Text,
    /// The text of its home.
    pub home: &'a Text,
    /// The `@` variables.
    pub globals: &'a mut Vars,
    /// Whether there are such.
    pub found: bool,
    /// Whether a receiver among them was reached.
    pub reached: bool,
}
