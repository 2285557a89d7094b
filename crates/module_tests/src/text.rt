//! A context with one key, which has a string, and without memory.

ghost use Rattle.std.specs.Prelude.{◌≡◌, true, [], ◌∷◌, refl};
ghost use Rattle.module_laws.specs.Told.{kind_at};
ghost use Rattle.module_tests.specs.Texts.{mark, mark_type, text_keys, text_kind, text_told};

use core_types::{Args, Effect, Kind, NoMemory, NoteClass, Reply};
use module_laws::{Context, KeyFault, MutFault, SetBack, SetFault, Viewed};
use std::alloc::Global;

/// A value that says nothing.
#[derive(Drop)]
pub struct Mark;

impl Viewed for Mark {
    ghost types = { mark_type ∷ [] };

    ghost native = { λ m. mark };

    ghost typed = { λ m. refl };
}

/// A context in which the key `s` has a string.
#[derive(Drop)]
pub struct Text {
    pub moment: u64,
}

// Whether a key is the one with the string.
fn is_text(key: &[u8]) -> bool
    ensures { kind_at text_keys key.now ≡ text_kind result }
{
    key == b"s".as_slice()
}

impl Context<Mark> for Text {
    ghost told = { λ text. text_told text.moment };

    ghost held = { λ text. [] };

    ghost typed = { λ text. true };

    ghost key_commands = { λ text. refl };

    fn kind(&self, key: &[u8]) -> Option<Kind> {
        if is_text(key) { Some(Kind::Str) } else { None }
    }

    fn native(&self, key: &[u8]) -> Result<&Mark, KeyFault> {
        if is_text(key) {
            Err(KeyFault::NotOurs(Kind::Str))
        } else {
            Err(KeyFault::Empty)
        }
    }

    fn native_mut(&mut self, _alloc: Global, key: &[u8]) -> Result<&mut Mark, MutFault> {
        if is_text(key) {
            Err(MutFault::NotOurs(Kind::Str))
        } else {
            Err(MutFault::Empty)
        }
    }

    fn set_native(
        &mut self,
        _alloc: Global,
        _key: &[u8],
        value: Mark,
    ) -> Result<(), SetBack<Mark>> {
        let fault = SetFault::Memory;
        Err(SetBack { fault, value })
    }

    fn delete(&mut self, _alloc: Global, _key: &[u8]) -> Result<bool, NoMemory> {
        Err(NoMemory)
    }

    fn call(&mut self, _alloc: Global, _words: &Args) -> Result<Reply, NoMemory> {
        Err(NoMemory)
    }

    fn replicate(&mut self, _alloc: Global, _effect: Effect) -> Result<(), NoMemory> {
        Err(NoMemory)
    }

    fn notify(
        &mut self,
        _alloc: Global,
        _class: NoteClass,
        _name: &[u8],
        _key: &[u8],
    ) -> Result<(), NoMemory> {
        Err(NoMemory)
    }

    fn moment(&self) -> u64 {
        self.moment
    }
}
