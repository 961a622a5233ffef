// The relations of a comparison, and the search for a byte.
ghost use Rattle.std.specs.Prelude.{◌≡◌, ◌<◌, length, position, get_or, IfSome};
ghost use Rattle.std.specs.Ordering.{nat_cmp};
ghost use Rattle.b2_base.specs.Byte as byte;
ghost use Rattle.b2_alpha.specs.Relations.{holds, found_place, order_of};

use std::cmp::Ordering;

/// A relation between two values.
#[derive(Clone, Copy)]
pub enum Rel {
    Eq,
    Ne,
    Lt,
    Le,
    Gt,
    Ge,
}

impl Rel {
    /// Whether the relation holds of two values that compare so.
    pub fn holds(self, order: Ordering) -> bool
        ensures { result ≡ holds self order }
    {
        match self {
            Rel::Eq => order == Ordering::Equal,
            Rel::Ne => order != Ordering::Equal,
            Rel::Lt => order == Ordering::Less,
            Rel::Le => order != Ordering::Greater,
            Rel::Gt => order == Ordering::Greater,
            Rel::Ge => order != Ordering::Less,
        }
    }
}

/// The index of the first byte that stands in the relation to `b`.
fn first_place(a: &[u8], rel: Rel, b: u8) -> Option<usize>
    ensures place { result ≡ position (λ x. holds rel (nat_cmp x b)) a.now }
    ensures within { IfSome result (λ i. i < length a.now) }
{
    a.iter().position(|x| rel.holds(x.cmp(&b)))
}

/// The place, counted from 1, of the first byte of `a` that stands in the relation to `b`, and 0 where none does.
pub fn pos(a: &[u8], rel: Rel, b: u8) -> usize
    ensures { result ≡ found_place a.now rel b }
{
    match first_place(a, rel, b) {
        Some(i) => i + 1,
        None => 0,
    }
}

/// The byte of a value at a place; blanks stand after its last.
fn byte_at(a: &[u8], i: usize) -> u8
    ensures { result ≡ get_or a.now i byte.blank }
{
    match a.get(i) {
        Some(b) => *b,
        None => b' ',
    }
}

/// The order of two values by their bytes, where the shorter one has blanks after it.
pub fn compare(a: &[u8], b: &[u8]) -> Ordering
    ensures { result ≡ order_of a.now b.now }
{
    for i in 0..a.len().max(b.len()) {
        let order = byte_at(a, i).cmp(&byte_at(b, i));
        if order != Ordering::Equal {
            return order;
        }
    }
    Ordering::Equal
}
