//! What letters, names and ids are, said of all of them.

ghost use Rattle.std.specs.Prelude.{◌≡◌, ◌^◌, ◌<◌, ◌≤◌, ℕ, List, map};
ghost use Rattle.std.specs.List.{range_with_len};
ghost use Rattle.type_ids.specs.Id.{IsIdOf, id_number};
ghost use Rattle.type_ids.specs.Letter.{IsLetter, letter_at, letter_number, letters};
ghost use Rattle.type_ids.specs.Name.{HasFault, IsTypeName};
ghost use Rattle.type_ids.specs.declared.name_fault.NameFault.{NameFault};

/// The letters stand in the order of their numbers, and each number below 64 has one.
pub fn letters_in_order()
    ensures letters { map letter_at (range_with_len 0 64) ≡ letters }
    ensures numbers { map letter_number letters ≡ range_with_len 0 64 }
    ensures letter { (byte : ℕ) → IsLetter byte → letter_at (letter_number byte) ≡ byte }
{}

/// A text that has a fault is no name, and has no other fault.
pub fn name_or_fault()
    ensures apart { (text : List ℕ) (fault : NameFault) → IsTypeName text → ¬ HasFault text fault }
    ensures one { (text : List ℕ) (fault other : NameFault) → HasFault text fault
        → HasFault text other
        → fault ≡ other }
{}

/// Names with versions and ids from 1024 on are the same thing twice: each name with a version has
/// one such id, and each such id is that of one name with one version.
pub fn ids_are_inverse()
    ensures id { (name : List ℕ) (version : ℕ) → IsTypeName name → version ≤ 1023
        → (1024 ≤ id_number name version) × (id_number name version < 2 ^ 64) }
    ensures name { (id : ℕ) → 1024 ≤ id → id < 2 ^ 64 → (name : List ℕ) × (version : ℕ)
        × IsIdOf name version id }
    ensures one { (name other : List ℕ) (version another id : ℕ) → IsIdOf name version id
        → IsIdOf other another id → (name ≡ other) × (version ≡ another) }
{}
