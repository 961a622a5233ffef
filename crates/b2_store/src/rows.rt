// Rows, each found by its key: the number of a partition or of a terminal, the address of a device, or a name.
ghost use Rattle.std.specs.Prelude.{◌≡◌, ℕ, Bool, [], ◌∷◌, ◌++◌, Some, IsSome, OnOk, position, option_copied};
ghost use Rattle.std.specs.Map.{lookup};
ghost use Rattle.std.specs.Option.{option_copied_mut};
ghost use Rattle.std.specs.Borrow.{sem};
ghost use Rattle.std.specs.Int.{w64, from_be_bytes};
ghost use Rattle.b2_store.specs.Names.{AreEight};

use b2_base::{Addr, Name8, NoMemory, Part, Term};
use std::alloc::Global;
use std::marker::Model;

/// What rows are found by.
pub trait Key: Copy {
    /// Whether the key of a row is this one.
    ghost found_by: { Self → Self → Bool };

    /// Whether another key is the same.
    fn finds(self, other: Self) -> bool
        ensures { result ≡ found_by self other };
}

impl Key for Part {
    ghost use Rattle.std.specs.Prelude.{◌==◌};

    ghost found_by = { λ key k. k == key };

    fn finds(self, other: Part) -> bool {
        other == self
    }
}

impl Key for Term {
    ghost use Rattle.std.specs.Prelude.{◌==◌};

    ghost found_by = { λ key k. k == key };

    fn finds(self, other: Term) -> bool {
        other.number() == self.number()
    }
}

impl Key for Addr {
    ghost use Rattle.std.specs.Str.{bytes_eq};

    ghost found_by = { λ key k. bytes_eq k key };

    fn finds(self, other: Addr) -> bool {
        other == self
    }
}

/// The bytes of a name as one word, by which names are compared.
fn name_word(name: &Name8) -> u64
    ensures word { result ≡ from_be_bytes w64 name.now }
    ensures whole { AreEight name.now }
{
    u64::from_be_bytes(name.bytes())
}

impl Key for Name8 {
    ghost use Rattle.std.specs.Str.{bytes_eq};

    ghost found_by = { λ key k. bytes_eq k key };

    #[tactic(auto, using(crate::proofs::NameWords::words_tell))]
    fn finds(self, other: Name8) -> bool {
        name_word(&other) == name_word(&self)
    }
}

/// Contents in rows, each with a key. Contracts see the list of the rows.
#[derive(Drop)]
pub struct Rows<K, X> {
    pub(crate) rows: Vec<(K, X)>,
}

impl<K, X> Model for Rows<K, X> {
    ghost use Rattle.std.specs.Prelude.{List};
    ghost use Rattle.std.specs.Coded.{coded_list, coded×};

    ghost Value = { List (K × X) };

    ghost coded = { coded_list (coded× K.code X.code) };

    ghost view = { λ r. r.rows.items };
}

/// The index of the first row of a key, None where no row has it.
pub(crate) fn row_index<K: Key, X>(rows: &[(K, X)], key: K) -> Option<usize>
    ensures { result ≡ position (λ e. K.found_by key e.0) rows.now }
{
    rows.iter().position(|row| key.finds(row.0))
}

impl<K: Drop, X: Drop> Rows<K, X> {
    /// Adds a row after the others.
    pub fn add(&mut self, key: K, x: X) -> Result<(), NoMemory>
        ensures { OnOk result (self.new ≡ self.old ++ (key, x) ∷ []) }
    {
        self.rows.push((key, x))?;
        Ok(())
    }
}

impl<K, X> Rows<K, X> {
    /// No rows. It takes no memory.
    pub fn new(alloc: Global) -> Rows<K, X>
        ensures { result ≡ [] }
    {
        Rows {
            rows: Vec::new(alloc),
        }
    }
}

impl<K: Key, X> Rows<K, X> {
    ghost use Rattle.b2_store.specs.RowLending.{LendsRow};

    /// The content of the first row of a key, None where no row has it.
    pub fn get(&self, key: K) -> Option<&X>
        ensures { option_copied result ≡ lookup (K.found_by key) self.now }
    {
        match row_index(&self.rows, key) {
            Some(index) => Some(&self.rows[index].1),
            None => None,
        }
    }

    /// The same, where a row has the key.
    pub fn value(&self, key: K) -> &X
        requires { IsSome (lookup (K.found_by key) self.now) }
        ensures { Some result.now ≡ lookup (K.found_by key) self.now }
    {
        self.get(key).unwrap()
    }

    /// The content of the first row of a key, to be changed; None where no row has it.
    pub fn get_mut(&mut self, key: K) -> Option<&mut X>
        ensures* writes_back { sem 𝓛 (LendsRow K.row X.row self.entry (K.found_by key) result) }
        ensures there { option_copied_mut result ≡ lookup (K.found_by key) self.old }
    {
        match row_index(&self.rows, key) {
            Some(index) => {
                let row = &mut self.rows[index];
                Some(&mut row.1)
            }
            None => None,
        }
    }
}
