//! What a file that is made is. The call does nothing: its contract is the law.
ghost use Rattle.std.specs.Prelude.{◌≡◌, Bool, ℕ, List, Option, Some, None, Ok, Err};
ghost use Rattle.b2_catalog.specs.declared.entry.Entry.{Entry as File};
ghost use Rattle.b2_catalog.specs.Making.{MakesFile, file_made, make_refusal};

/// What the function says is a file as it is made, and a code is that of the refusal.
pub fn a_file_is_made_or_refused()
    ensures made { (image : List ℕ) (old : Option (List ℕ)) (name : List ℕ) (program : Bool) (sectors : ℕ) (new : List ℕ) (e : File) → file_made image old name program sectors ≡ Ok (new, e) → (make_refusal image old name sectors ≡ None) × MakesFile image old name program sectors new e }
    ensures refused { (image : List ℕ) (old : Option (List ℕ)) (name : List ℕ) (program : Bool) (sectors code : ℕ) → file_made image old name program sectors ≡ Err code → make_refusal image old name sectors ≡ Some code }
{}
