//! What the words over the keys say of each other.

ghost use Rattle.std.specs.Prelude.{Bool};
ghost use Rattle.core_types.specs.Keys.{KeysOf, no_keys};
ghost use Rattle.core_types.specs.Keyspace.{IsKeyspace};
ghost use Rattle.core_types.specs.KeyLaws.{KeysByKey, KeyspaceIsKept};

/// The keys are known by what each key has. Setting or removing a key changes that key alone, and
/// the count by one where the key was not there, or was.
pub fn keys_by_key<N>()
    ensures { KeysByKey N }
{}

/// What the keys may be, they stay, whatever a test says of the values of modules.
pub fn keyspace_is_kept<N>()
    ensures none { (allowed : N → Bool) → IsKeyspace allowed no_keys }
    ensures kept { (allowed : N → Bool) (keys : KeysOf N)
        → IsKeyspace allowed keys → KeyspaceIsKept N allowed keys }
{}
