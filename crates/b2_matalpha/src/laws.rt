//! Laws of the definitions that this crate's contracts cite. Each call does nothing: its contract is the law.
ghost use Rattle.std.specs.Prelude.{◌≡◌, ◌<◌, ◌≤◌, ◌+◌, ◌-◌, ◌*◌, ℕ, List, length, true};
ghost use Rattle.std.specs.List.{All, Contains};
ghost use Rattle.std.specs.List.Sorted.{IsStrictlyIncreasing};
ghost use Rattle.b2_alpha.specs.declared.relation.Rel.{Rel};
ghost use Rattle.b2_matalpha.specs.Locators.{received, places_read};
ghost use Rattle.b2_matalpha.specs.Searches.{is_found, found_places};
ghost use Rattle.b2_matalpha.specs.Sorts.{sorted_places, AreSorted};

/// The locators that are sorted are those of all elements in the order of their bytes and then of their places, and no
/// other list is.
pub fn one_order()
    ensures sorted { (of : List ℕ) (len : ℕ) → AreSorted of len (sorted_places of len) }
    ensures only { (of : List ℕ) (len : ℕ) (places : List ℕ) → AreSorted of len places → places ≡ sorted_places of len }
{}

/// Places that are written as locators are read back, where there is room for them.
pub fn locators_are_read_back()
    ensures { (places into : List ℕ) → All (λ place. 0 < place) places → 2 * length places ≤ length into → places_read (received places into) ≡ places }
{}

/// A search finds exactly the places that match, in ascending order.
pub fn searches_find_what_matches()
    ensures ascending { (of : List ℕ) (rel : Rel) (want : List ℕ) (step : ℕ) → IsStrictlyIncreasing (found_places of rel want step) }
    ensures only { (of : List ℕ) (rel : Rel) (want : List ℕ) (step : ℕ) → All (λ place. (0 < place) × (is_found of rel want step (place - 1) ≡ true)) (found_places of rel want step) }
    ensures each { (of : List ℕ) (rel : Rel) (want : List ℕ) (step index : ℕ) → index < length of → is_found of rel want step index ≡ true → Contains (found_places of rel want step) (index + 1) }
{}
