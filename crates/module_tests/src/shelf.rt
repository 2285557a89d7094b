//! A context over a vector, which knows no built-in command.

ghost use Rattle.std.specs.Prelude.{◌≡◌, ◌<◌, ◌≤◌, refl, [], position, vec_len, MatchOption, None};
ghost use Rattle.std.specs.List.{list_all};
ghost use Rattle.core_types.specs.Keys.{entry_at};
ghost use Rattle.module_tests.specs.Shelf.{IsAt, has_key, is_as_put, keys_of, shelf_told};

use crate::slot::Slot;
use core_types::{Args, Blob, Effect, Effects, Kind, NoMemory, Note, NoteClass, Notes, Reply};
use module_laws::{Context, KeyFault, ModuleSet, MutFault, SetBack, SetFault};
use std::alloc::Global;
use type_ids::TypeName;

/// The keys of a set's values, and what was added. The newest slot of a key stands first, and hides
/// the older ones; so a value that leaves the keys is kept until the end.
pub struct Shelf<M: ModuleSet> {
    slots: Vec<Slot<M::Value>>,
    effects: Effects,
    notes: Notes,
    moment: u64,
    ghost few: { M.modules.size ≤ 200 },
}

impl<M: ModuleSet> Shelf<M> {
    /// No keys, at moment 0.
    pub fn new(alloc: Global, _set: &M) -> Shelf<M> {
        Shelf {
            slots: Vec::new(alloc),
            effects: Effects::new(alloc),
            notes: Notes::new(alloc),
            moment: 0,
        }
    }

    /// How many effects and how many notes were added.
    pub fn added(&self) -> (u64, u64) {
        (self.effects.len() as u64, self.notes.len() as u64)
    }

    /// Takes out one of the values that were put in, also one that has left the keys.
    pub fn pop(&mut self) -> Option<M::Value>
        ensures { MatchOption result (self.new.slots.items ≡ [])
            (λ _. vec_len self.new.slots < vec_len self.old.slots) }
    {
        match self.slots.pop() {
            Some(slot) => Some(slot.into_value()),
            None => None,
        }
    }

    /// Ends a context without values.
    pub fn close(self)
        requires { self.slots.items ≡ [] }
    {
        let Shelf {
            slots,
            effects: _,
            notes: _,
            moment: _,
        } = self;
        slots.destroy_empty();
    }

    // The name of a value's type.
    fn name_of(&self, value: &M::Value) -> TypeName
        ensures { result ≡ (M.Value.native value.now).name }
    {
        M::name(M::owner(value))
    }

    // The place of the newest slot of a key.
    fn newest(&self, key: &[u8]) -> Option<usize>
        ensures { result ≡ position (has_key key.now) self.now.slots.items }
    {
        self.slots.iter().position(|slot| key == slot.key())
    }

    // The place of the slot that has what a key has.
    fn place(&self, key: &[u8]) -> Option<usize>
        ensures { MatchOption result (entry_at (keys_of self.now.slots.items) key.now ≡ None)
            (IsAt self.now.slots.items key.now) }
    {
        match self.newest(key) {
            Some(place) if self.slots[place].is_live() => Some(place),
            _ => None,
        }
    }
}

impl<M: ModuleSet> Context<M::Value> for Shelf<M> {
    ghost told = { λ shelf. shelf_told shelf.slots.items shelf.effects shelf.notes shelf.moment };

    ghost held = { λ shelf. [] };

    ghost typed = { λ shelf. list_all is_as_put shelf.slots.items };

    ghost key_commands = { λ shelf. refl };

    fn kind(&self, key: &[u8]) -> Option<Kind> {
        match self.place(key) {
            Some(place) => Some(Kind::Native(self.name_of(self.slots[place].value()))),
            None => None,
        }
    }

    fn native(&self, key: &[u8]) -> Result<&M::Value, KeyFault> {
        match self.place(key) {
            Some(place) => Ok(self.slots[place].value()),
            None => Err(KeyFault::Empty),
        }
    }

    fn native_mut(&mut self, _alloc: Global, key: &[u8]) -> Result<&mut M::Value, MutFault> {
        match self.place(key) {
            Some(place) => Ok(self.slots[place].value_mut()),
            None => Err(MutFault::Empty),
        }
    }

    fn set_native(
        &mut self,
        alloc: Global,
        key: &[u8],
        value: M::Value,
    ) -> Result<(), SetBack<M::Value>> {
        let fault = SetFault::Memory;
        let Ok(key) = Blob::from_slice(alloc, key) else {
            return Err(SetBack { fault, value });
        };
        if self.slots.reserve(1).is_err() {
            return Err(SetBack { fault, value });
        }
        let name = self.name_of(&value);
        match self.slots.insert(0, Slot::new(key, name, value)) {
            Ok(()) => Ok(()),
            Err(_refused) => unreachable!(),
        }
    }

    fn delete(&mut self, _alloc: Global, key: &[u8]) -> Result<bool, NoMemory> {
        match self.place(key) {
            Some(place) => {
                self.slots[place].remove();
                Ok(true)
            }
            None => Ok(false),
        }
    }

    fn call(&mut self, alloc: Global, _words: &Args) -> Result<Reply, NoMemory> {
        Reply::error(alloc, b"ERR modules may call built-in key commands only")
    }

    fn replicate(&mut self, _alloc: Global, effect: Effect) -> Result<(), NoMemory> {
        self.effects.push(effect)
    }

    fn notify(
        &mut self,
        alloc: Global,
        class: NoteClass,
        name: &[u8],
        key: &[u8],
    ) -> Result<(), NoMemory> {
        let name = Blob::from_slice(alloc, name)?;
        let key = Blob::from_slice(alloc, key)?;
        self.notes.push(Note { class, name, key })
    }

    fn moment(&self) -> u64 {
        self.moment
    }
}
