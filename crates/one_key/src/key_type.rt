//! A type of values whose commands each work on one key: what its author writes.

ghost use Rattle.std.specs.Prelude.{◌≡◌, ◌≤◌, ℕ, List, true, map, length, Some, None, Ok, IfOk, IfErr, OnErr};
ghost use Rattle.std.specs.List.{list_all};
ghost use Rattle.core_types.specs.CommandRow.{row_of_spec};
ghost use Rattle.core_types.specs.Keyspace.{IsString};
ghost use Rattle.module_laws.specs.Rewriting.{Rebuilds};
ghost use Rattle.module_laws.specs.Types.{is_short};
ghost use Rattle.module_laws.specs.Words.{Saved};
ghost use Rattle.one_key.specs.KeyMeaning.{KeyMeaning};
ghost use Rattle.one_key.specs.Lawful.{IsKeyLawful};
ghost use Rattle.one_key.specs.MeaningOf.{meaning_of};
ghost use Rattle.one_key.specs.Writing.{DoesWrite, RefusesLoading};

use crate::wrote::Wrote;
use core_types::{Args, CommandSpec, Effects, Items, NoMemory, Reply};
use module_laws::LoadStop;
use std::alloc::Global;

/// A type of values whose commands each work on one key. What each call does is written in its
/// `meaning`. `OneKey` makes a module of it, which counts values, stores them, hands them back,
/// replicates and notifies.
///
/// The words that a command is given are its own: its name is in upper case, its key stands behind
/// it, and they are as many as it takes.
pub trait KeyType {
    /// Its values. They are plain data, which may be let go.
    type Value: Drop;

    /// The name of the type.
    const NAME: [u8; 9];

    /// The version in which it saves values.
    const ENCVER: u16;

    /// The name of the type, for contracts.
    ghost NAME: { List ℕ };

    /// The version, for contracts.
    ghost ENCVER: { ℕ };

    /// What it means.
    ghost meaning: { KeyMeaning };

    /// What a value is saved as.
    ghost saved: { Self.Value → Saved };

    /// Its commands.
    fn commands() -> &'static [CommandSpec]
        ensures rows { map row_of_spec result.now ≡ meaning.rows };

    /// What a command that reads replies, where its key has this value.
    fn read(alloc: Global, value: &Self::Value, words: &Args) -> Result<Reply, NoMemory>
        requires key { 2 ≤ length words.now }
        ensures reply { IfOk result
            (λ reply. reply ≡ meaning.reads (Some (saved value.now)) words.now) };

    /// What a command that reads replies, where its key is not there.
    fn read_absent(alloc: Global, words: &Args) -> Result<Reply, NoMemory>
        requires key { 2 ≤ length words.now }
        ensures reply { IfOk result (λ reply. reply ≡ meaning.reads None words.now) };

    /// Runs a command that writes on the value of its key, which is changed in place or goes. After
    /// an `Err` it is as it was.
    fn write(
        alloc: Global,
        value: &mut Self::Value,
        words: &Args,
    ) -> Result<Wrote<Self::Value>, NoMemory>
        requires key { 2 ≤ length words.now }
        ensures does { IfOk result
            (λ wrote. DoesWrite saved wrote (Some value.old) (Some value.new)
            (meaning.writes (Some (saved value.old)) words.now)) }
        ensures err { OnErr result (value.new ≡ value.old) };

    /// Runs a command that writes where its key is not there: a value may be put there.
    fn write_absent(alloc: Global, words: &Args) -> Result<Wrote<Self::Value>, NoMemory>
        requires key { 2 ≤ length words.now }
        ensures does { IfOk result
            (λ wrote. DoesWrite saved wrote None None (meaning.writes None words.now)) };

    /// What any command replies where the key has a value of another kind.
    fn other(alloc: Global, words: &Args) -> Result<Reply, NoMemory>
        requires key { 2 ≤ length words.now }
        ensures reply { IfOk result (λ reply. reply ≡ meaning.others words.now) };

    /// What a value is saved as.
    fn save(alloc: Global, value: &Self::Value) -> Result<Items, NoMemory>
        ensures items { IfOk result (λ items. items ≡ saved value.now) };

    /// The value that was saved so in this version, or why there is none.
    fn load(alloc: Global, items: &Items, encver: u16) -> Result<Self::Value, LoadStop>
        ensures value { IfOk result
            (λ value. meaning.loads items.now encver ≡ Ok (saved value)) }
        ensures refused { IfErr result (RefusesLoading (meaning.loads items.now encver)) };

    /// Commands of its own that build the value of a key again. For an empty value there are none.
    fn rewrite(alloc: Global, key: &[u8], value: &Self::Value) -> Result<Effects, NoMemory>
        requires key { IsString key.now }
        requires short { list_all is_short (saved value.now) ≡ true }
        ensures builds { IfOk result (Rebuilds (meaning_of meaning) key.now (saved value.now)) };

    /// The constants are those of the meaning.
    ghost named: { (NAME ≡ meaning.name) × (ENCVER ≡ meaning.version) };

    /// The name, the commands, the effects and the limits are as they have to be.
    ghost lawful: { IsKeyLawful meaning };

    /// What was saved is loaded as it was.
    ghost reads_back: { (value : Self.Value)
        → meaning.loads (saved value) meaning.version ≡ Ok (saved value) };
}
