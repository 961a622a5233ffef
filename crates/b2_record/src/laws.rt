//! Laws of records. Each call does nothing: its contract is the law.
ghost use Rattle.std.specs.Prelude.{◌≡◌, ◌+◌, ◌≤◌, ℕ, List, Some, None};
ghost use Rattle.b2_dec.specs.declared.values.Value.{Value as AnyValue};
ghost use Rattle.b2_platter.specs.Image.{sectors_at};
ghost use Rattle.b2_record.specs.Records.{Spells, IsNoRecord};
ghost use Rattle.b2_record.specs.Reading.{record_at};
ghost use Rattle.b2_record.specs.Writing.{record_of};

/// A list of values has one record.
pub fn values_have_one_record()
    ensures { (values : List AnyValue) (sectors : List (List ℕ)) → Spells values sectors → sectors ≡ record_of values }
{}

/// Sectors are the record of one list of values at most.
pub fn sectors_have_one_reading()
    ensures { (a b : List AnyValue) (sectors : List (List ℕ)) → Spells a sectors → Spells b sectors → a ≡ b }
{}

/// At one place of an image one record begins at most: its values and how many sectors it has are told by the sectors.
pub fn one_record_begins()
    ensures sectors { (image : List ℕ) (at m n : ℕ) (a b : List AnyValue) → Spells a (sectors_at image at m) → Spells b (sectors_at image at n) → m ≡ n }
    ensures values { (image : List ℕ) (at m n : ℕ) (a b : List AnyValue) → Spells a (sectors_at image at m) → Spells b (sectors_at image at n) → a ≡ b }
{}

/// What is read at a place is the record that is spelled there, and nothing is read exactly where none is.
pub fn records_are_read_back()
    ensures spelled { (image : List ℕ) (at last : ℕ) (found : List AnyValue × ℕ) → record_at image at last ≡ Some found → Spells found.0 (sectors_at image at found.1) × (at + found.1 ≤ last + 1) }
    ensures read { (image : List ℕ) (at last n : ℕ) (values : List AnyValue) → at + n ≤ last + 1 → Spells values (sectors_at image at n) → record_at image at last ≡ Some (values, n) }
    ensures none { (image : List ℕ) (at last : ℕ) → record_at image at last ≡ None → IsNoRecord image at last }
{}
