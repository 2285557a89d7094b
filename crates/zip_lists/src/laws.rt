//! What holds of all bytes: laws over the definitions, by functions that do nothing.

ghost use Rattle.std.specs.Prelude.{◌≡◌, ◌⊎◌, ℕ, List};
ghost use Rattle.zip_lists.specs.Numbers.{AreBytes};
ghost use Rattle.zip_lists.specs.Ziplist.{IsZiplist};
ghost use Rattle.zip_lists.specs.BadPlace.{IsBad, IsFirstBad};

/// Bytes are a ziplist, of one list of items, or they have one first bad place, and never both.
pub fn one_outcome()
    ensures either { (bytes : List ℕ) → AreBytes bytes
        → ((items : List (List ℕ)) × IsZiplist bytes items)
        ⊎ ((place : ℕ) × IsFirstBad bytes place) }
    ensures items { (bytes : List ℕ) (items others : List (List ℕ)) → IsZiplist bytes items
        → IsZiplist bytes others → items ≡ others }
    ensures place { (bytes : List ℕ) (place other : ℕ) → IsFirstBad bytes place
        → IsFirstBad bytes other → place ≡ other }
    ensures apart { (bytes : List ℕ) (items : List (List ℕ)) (place : ℕ) → IsZiplist bytes items
        → ¬ IsBad bytes place }
{}
