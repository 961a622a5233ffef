//! What writing does to a platter, and what is read back. Each call does nothing: its contract is the law.
ghost use Rattle.std.specs.Prelude.{◌≡◌, ◌+◌, ◌*◌, ◌<◌, ◌≤◌, ◌⊎◌, ℕ, List, [], ◌∷◌, length, true, Some, None, Ok};
ghost use Rattle.b2_dec.specs.declared.values.Kind.{Kind as AnyKind};
ghost use Rattle.b2_dec.specs.declared.values.Value.{Value as AnyValue};
ghost use Rattle.b2_platter.specs.Checks.{IsGood};
ghost use Rattle.b2_platter.specs.Image.{index_of, row, sector, sectors_at};
ghost use Rattle.b2_platter.specs.Own.{end_of};
ghost use Rattle.b2_catalog.specs.Catalogue.{catalogue};
ghost use Rattle.b2_record.specs.Asking.{agree};
ghost use Rattle.b2_record.specs.EndSector.{end_mark};
ghost use Rattle.b2_record.specs.Records.{Spells};
ghost use Rattle.b2_record.specs.Writing.{record_of};
ghost use Rattle.b2_raw.specs.Raw.{block_at, block_put, ended, filled, loaded, saved};
ghost use Rattle.b2_raw.specs.Laws.{Writes};

/// Writing leaves the image good, its catalogue, all slots, all sectors before the catalogue's end, and all others but
/// those that are written; and these are there.
pub fn writing_leaves_the_rest()
    ensures good { (image new : List ℕ) (at : ℕ) (sectors : List (List ℕ)) → Writes image at sectors new → IsGood new }
    ensures files { (image new : List ℕ) (at : ℕ) (sectors : List (List ℕ)) → Writes image at sectors new → catalogue new ≡ catalogue image }
    ensures slots { (image new : List ℕ) (at k : ℕ) (sectors : List (List ℕ)) → Writes image at sectors new → k < 16 * index_of image → row new k ≡ row image k }
    ensures below { (image new : List ℕ) (at k : ℕ) (sectors : List (List ℕ)) → Writes image at sectors new → k < end_of image → sector new k ≡ sector image k }
    ensures others { (image new : List ℕ) (at k : ℕ) (sectors : List (List ℕ)) → Writes image at sectors new → (k < at) ⊎ (at + length sectors ≤ k) → sector new k ≡ sector image k }
    ensures there { (image new : List ℕ) (at : ℕ) (sectors : List (List ℕ)) → Writes image at sectors new → sectors_at new at (length sectors) ≡ sectors }
{}

/// Each call that writes does so with the sectors of its record, with the end mark, or with its bytes.
pub fn calls_write_sectors()
    ensures record_saved { (image new : List ℕ) (at next : ℕ) (values : List AnyValue) → IsGood image → Spells values (record_of values) → saved image at values ≡ Ok (new, next) → Writes image at (record_of values) new }
    ensures mark { (image new : List ℕ) (at next : ℕ) → IsGood image → ended image at ≡ Ok (new, next) → Writes image at (end_mark ∷ []) new }
    ensures block { (image new bytes : List ℕ) (at next : ℕ) → IsGood image → length bytes ≤ 256 → block_put image at bytes ≡ Ok (new, next) → Writes image at (filled bytes ∷ []) new }
{}

/// What is saved at a sector is loaded from there, with the next sector; after an end nothing is; and a block that was put
/// is there.
pub fn what_is_written_is_read_back()
    ensures record_saved { (image new : List ℕ) (at next : ℕ) (values : List AnyValue) (kinds : List AnyKind) → IsGood image → Spells values (record_of values) → saved image at values ≡ Ok (new, next) → agree kinds values ≡ true → length kinds ≡ length values → loaded new at kinds ≡ Ok (Some (values, next)) }
    ensures mark { (image new : List ℕ) (at next : ℕ) (kinds : List AnyKind) → IsGood image → ended image at ≡ Ok (new, next) → loaded new at kinds ≡ Ok None }
    ensures block { (image new bytes : List ℕ) (at next : ℕ) → IsGood image → length bytes ≤ 256 → block_put image at bytes ≡ Ok (new, next) → block_at new at ≡ Ok (filled bytes) }
{}
