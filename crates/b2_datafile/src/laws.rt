//! What saving and ending do to the records of a file, and what loading and moving give. Each call does nothing: its
//! contract is the law.
ghost use Rattle.std.specs.Prelude.{◌≡◌, ◌+◌, ◌-◌, ◌<◌, ◌≤◌, [], ◌∷◌, ◌++◌, ℕ, List, length, Option, Some, None, Ok, Err};
ghost use Rattle.std.specs.FinMap.{insert};
ghost use Rattle.b2_base.specs.declared.codes.Fault.TheVariants as fault;
ghost use Rattle.b2_base.specs.declared.files.By.{By as Way};
ghost use Rattle.b2_base.specs.declared.files.Slot.{Slot as OpenFile};
ghost use Rattle.b2_dec.specs.declared.values.Kind.{Kind as AnyKind};
ghost use Rattle.b2_dec.specs.declared.values.Value.{Value as AnyValue};
ghost use Rattle.b2_platter.specs.Image.{sector};
ghost use Rattle.b2_platter.specs.Checks.{IsGood};
ghost use Rattle.b2_platter.specs.Edits.{put_from};
ghost use Rattle.b2_catalog.specs.declared.entry.Entry.{Entry as File};
ghost use Rattle.b2_catalog.specs.Catalogue.{catalogue};
ghost use Rattle.b2_catalog.specs.Making.{make_refusal};
ghost use Rattle.b2_record.specs.Writing.{record_of};
ghost use Rattle.b2_datafile.specs.Files.{IsEndOfRecords, IsFront, IsWhole, MadeEmpty, new_opened, with_end};
ghost use Rattle.b2_datafile.specs.Laws.{SavesAt, EndsAt};
ghost use Rattle.b2_datafile.specs.Loading.{LoadFails, Loads, LoadsRecord, values_loaded};
ghost use Rattle.b2_datafile.specs.Moving.{Moves, SkipFails, place_moved};
ghost use Rattle.b2_datafile.specs.Slots.{file_of};

/// A record that is saved at a place follows the records up to that place.
pub fn saving_adds_the_record()
    ensures { (image : List ℕ) (e : File) (pos : ℕ) (values : List AnyValue) (records : List (List AnyValue)) → SavesAt image e pos values → IsFront image e pos records → IsFront (put_from image pos (record_of values)) e (pos + length (record_of values)) (records ++ values ∷ []) }
{}

/// Saving leaves the catalogue, the image good, and all sectors but those of the record.
pub fn saving_leaves_the_rest()
    ensures good { (image : List ℕ) (e : File) (pos : ℕ) (values : List AnyValue) → SavesAt image e pos values → IsGood (put_from image pos (record_of values)) }
    ensures files { (image : List ℕ) (e : File) (pos : ℕ) (values : List AnyValue) → SavesAt image e pos values → catalogue (put_from image pos (record_of values)) ≡ catalogue image }
    ensures before { (image : List ℕ) (e : File) (pos : ℕ) (values : List AnyValue) (k : ℕ) → SavesAt image e pos values → k < pos → sector (put_from image pos (record_of values)) k ≡ sector image k }
    ensures after { (image : List ℕ) (e : File) (pos : ℕ) (values : List AnyValue) (k : ℕ) → SavesAt image e pos values → pos + length (record_of values) ≤ k → sector (put_from image pos (record_of values)) k ≡ sector image k }
{}

/// An end mark that is written at a place makes the file whole, with the records up to that place.
pub fn ending_makes_the_file_whole()
    ensures { (image : List ℕ) (e : File) (pos : ℕ) (records : List (List AnyValue)) → EndsAt image e pos → IsFront image e pos records → IsWhole (with_end image e pos) (record e { used = pos - e.start + 1 }) records }
{}

/// Ending leaves the image good, the catalogue but for how many of the file's sectors are used, and all sectors but that of
/// the place and the file's control sector.
pub fn ending_leaves_the_rest()
    ensures good { (image : List ℕ) (e : File) (pos : ℕ) → EndsAt image e pos → IsGood (with_end image e pos) }
    ensures files { (image : List ℕ) (e : File) (pos : ℕ) → EndsAt image e pos → catalogue (with_end image e pos) ≡ insert (catalogue image) e.name (record e { used = pos - e.start + 1 }) }
    ensures others { (image : List ℕ) (e : File) (pos k : ℕ) → EndsAt image e pos → (k ≡ pos → ⊥) → (k ≡ e.end → ⊥) → sector (with_end image e pos) k ≡ sector image k }
{}

/// The records up to a place are told by the sectors.
pub fn one_list_of_records_fills()
    ensures { (image : List ℕ) (e : File) (pos : ℕ) (a b : List (List AnyValue)) → IsFront image e pos a → IsFront image e pos b → a ≡ b }
{}

/// What the function of making a data file says is a file with no records, or the refusal's code.
pub fn a_new_file_is_empty()
    ensures made { (image addr : List ℕ) (old : Option (List ℕ)) (sectors : ℕ) (name new : List ℕ) (slot : OpenFile) → new_opened image addr old sectors name ≡ Ok (new, slot) → (make_refusal image old name sectors ≡ None) × MadeEmpty image old name sectors new }
    ensures refused { (image addr : List ℕ) (old : Option (List ℕ)) (sectors : ℕ) (name : List ℕ) (code : ℕ) → new_opened image addr old sectors name ≡ Err code → make_refusal image old name sectors ≡ Some code }
{}

/// What a load gives is what stands at the place: the end of the records, a record whose first values are those that are
/// asked, or a cause for the code.
pub fn loading_gives_what_stands_there()
    ensures none { (image : List ℕ) (slot : OpenFile) (kinds : List AnyKind) → values_loaded image slot kinds ≡ Ok None → Loads image slot kinds None }
    ensures some { (image : List ℕ) (slot : OpenFile) (kinds : List AnyKind) (found : List AnyValue × ℕ) → values_loaded image slot kinds ≡ Ok (Some found) → (e : File) × (file_of image slot ≡ Some e) × (IsEndOfRecords image e slot.pos → ⊥) × LoadsRecord image e slot.pos kinds found.0 found.1 }
    ensures code { (image : List ℕ) (slot : OpenFile) (kinds : List AnyKind) (code : ℕ) → values_loaded image slot kinds ≡ Err code → LoadFails image slot kinds (fault.Code code) }
{}

/// A place goes over the records that stand there, and stays only for a cause.
pub fn places_go_over_records()
    ensures place { (image : List ℕ) (slot : OpenFile) (way : Way) (to : ℕ) → place_moved image slot way ≡ Ok to → (e : File) × (file_of image slot ≡ Some e) × Moves image e slot.pos way to }
    ensures code { (image : List ℕ) (slot : OpenFile) (way : Way) (code : ℕ) → place_moved image slot way ≡ Err code → SkipFails image slot way (fault.Code code) }
{}
