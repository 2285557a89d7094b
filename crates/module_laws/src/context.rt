//! The keys as a module works on them.

ghost use Rattle.std.specs.Prelude.{◌≡◌, Bool, true, Some, is_some, IfOk, IfErr, OnOk, OnErr, List};
ghost use Rattle.std.specs.Borrow.{sem, LendsSoOk, GName};
ghost use Rattle.core_types.specs.Keys.{entry_at, value_at};
ghost use Rattle.core_types.specs.Keyspace.{IsString};
ghost use Rattle.core_types.specs.declared.value.Value.TheVariants as value;
ghost use Rattle.core_types.specs.Limits.{IsWithinLimits, IsSmallEffect};
ghost use Rattle.module_laws.specs.Types.{is_kept};
ghost use Rattle.module_laws.specs.Named.{are_key_commands};
ghost use Rattle.module_laws.specs.Told.{Told, KeepsTypes, kind_at, HasFault, MayFail, MayRefuse, called, with_native, with_put, with_deleted, with_called, with_effect, with_note};

use crate::viewed::Viewed;
use core_types::{Args, Effect, Kind, NoMemory, NoteClass, Reply};
use std::alloc::Global;

/// Why a key has no value of one's own.
#[derive(Clone, Copy, Debug, PartialEq, Eq)]
pub enum KeyFault {
    /// It holds this kind.
    NotOurs(Kind),
    /// It is not there.
    Empty,
}

/// Why no value is lent to be changed.
#[derive(Clone, Copy, Debug, PartialEq, Eq)]
pub enum MutFault {
    /// The key holds this kind.
    NotOurs(Kind),
    /// It is not there.
    Empty,
    /// Memory ran out.
    Memory,
}

/// Why a value was not put in.
#[derive(Clone, Copy, Debug, PartialEq, Eq)]
pub enum SetFault {
    /// The key is open for reading alone.
    ReadOnly,
    /// Memory ran out.
    Memory,
    /// No serial is left for a further value.
    NumbersSpent,
}

/// A value that was not put in, and why.
#[derive(Debug)]
pub struct SetBack<V> {
    /// Why.
    pub fault: SetFault,
    /// The value.
    pub value: V,
}

/// The keys as a module sees and changes them in one call, where `V` is what it gives out and takes
/// as values of modules.
pub trait Context<V: Viewed> {
    /// What it tells: the keys, the moment, and what was added.
    ghost told: { Self → Told };

    /// The references that it holds. They stay the same.
    ghost held: { Self → List GName };

    /// Whether each value in it has the type that it was put in with, also one that has left the
    /// keys.
    ghost typed: { Self → Bool };

    /// The kind of a key's value, or `None` where the key is not there.
    fn kind(&self, key: &[u8]) -> Option<Kind>
        ensures kind { result ≡ kind_at (told self.now).seen.keys key.now };

    /// The value of a key.
    fn native(&self, key: &[u8]) -> Result<&V, KeyFault>
        ensures value { IfOk result (λ lent.
            value_at (told self.now).seen.keys key.now ≡ Some (value.Native (V.native lent.now))) }
        ensures fault { IfErr result (λ fault.
            HasFault V.types (kind_at (told self.now).seen.keys key.now) fault) };

    /// The value of a key, to be changed in place. Its deadline stays. A value of another type that
    /// is written there is told: not each value then has the type that it was put in with.
    fn native_mut(&mut self, alloc: Global, key: &[u8]) -> Result<&mut V, MutFault>
        ensures* lends { sem 𝓛 (LendsSoOk Self.row V.row self.entry result
            (λ end value. (told end ≡ with_native key.now (V.native value) (told self.old))
            × (held end ≡ held self.old)
            × KeepsTypes (V.native value) (value_at (told self.old).seen.keys key.now)
            (typed self.old) (typed end))
            (λ end. (told end ≡ told self.old) × (held end ≡ held self.old)
            × (typed end ≡ typed self.old))) }
        ensures value { IfOk result (λ lent.
            value_at (told self.old).seen.keys key.now ≡ Some (value.Native (V.native lent.now))) }
        ensures fault { IfErr result (λ fault.
            MayFail V.types (kind_at (told self.old).seen.keys key.now) fault) };

    /// Puts a value in, in place of what the key had. The deadline stays where the key had a value
    /// of the same type, and else there is none.
    fn set_native(&mut self, alloc: Global, key: &[u8], value: V) -> Result<(), SetBack<V>>
        requires key { IsString key.now }
        requires kept { is_kept V.types (V.native value) ≡ true }
        ensures ok { OnOk result (told self.new
            ≡ with_put key.now (V.native value) (told self.new).has_serial (told self.old)) }
        ensures serial { OnOk result ((told self.old).has_serial ≡ true) }
        ensures back { IfErr result
            (λ back. (back.value ≡ value) × MayRefuse (told self.old) back.fault) }
        ensures holds { held self.new ≡ held self.old }
        ensures typed { typed self.new ≡ typed self.old }
        ensures err { OnErr result (told self.new ≡ told self.old) };

    /// Removes a key, whatever it has, and says whether it was there.
    fn delete(&mut self, alloc: Global, key: &[u8]) -> Result<bool, NoMemory>
        ensures there { IfOk result
            (λ there. there ≡ is_some (entry_at (told self.old).seen.keys key.now)) }
        ensures ok { OnOk result (told self.new ≡ with_deleted key.now (told self.old)) }
        ensures holds { held self.new ≡ held self.old }
        ensures typed { typed self.new ≡ typed self.old }
        ensures err { OnErr result (told self.new ≡ told self.old) };

    /// Runs a built-in command on the keys, as a client outside a transaction would, and adds its
    /// effects and notes. The reply is an error where the words name a module's command, one of a
    /// connection, SAVE or none, and where they are not as many as the command takes.
    fn call(&mut self, alloc: Global, words: &Args) -> Result<Reply, NoMemory>
        requires { IsWithinLimits words.now }
        ensures reply { IfOk result
            (λ reply. reply ≡ (called (told self.old).seen words.now).reply) }
        ensures ok { OnOk result (told self.new ≡ with_called words.now (told self.old)) }
        ensures holds { held self.new ≡ held self.old }
        ensures typed { typed self.new ≡ typed self.old }
        ensures err { OnErr result (told self.new ≡ told self.old) };

    /// Adds an effect. Nothing else replicates what a module changes, but for what it calls.
    fn replicate(&mut self, alloc: Global, effect: Effect) -> Result<(), NoMemory>
        requires { IsSmallEffect effect }
        ensures ok { OnOk result (told self.new ≡ with_effect effect (told self.old)) }
        ensures holds { held self.new ≡ held self.old }
        ensures typed { typed self.new ≡ typed self.old }
        ensures err { OnErr result (told self.new ≡ told self.old) };

    /// Adds a note.
    fn notify(
        &mut self,
        alloc: Global,
        class: NoteClass,
        name: &[u8],
        key: &[u8],
    ) -> Result<(), NoMemory>
        ensures ok { OnOk result (told self.new
            ≡ with_note (record { class = class; name = name.now; key = key.now })
            (told self.old)) }
        ensures holds { held self.new ≡ held self.old }
        ensures typed { typed self.new ≡ typed self.old }
        ensures err { OnErr result (told self.new ≡ told self.old) };

    /// The moment, in milliseconds.
    fn moment(&self) -> u64
        ensures moment { result ≡ (told self.now).seen.moment };

    /// The commands that `call` runs are commands on keys: none has a dot in its name, as a module's
    /// command has, and none is one of a connection or SAVE.
    ghost key_commands: { (ctx : Self)
        → are_key_commands (told ctx).seen.builtins.rows ≡ true };
}
