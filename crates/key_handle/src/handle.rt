//! A key of a context, opened.

ghost use Rattle.std.specs.Prelude.{◌≡◌, [], Some, is_some, IfOk, IfErr, OnOk, OnErr, true};
ghost use Rattle.std.specs.Borrow.{sem, LendsSoOk};
ghost use Rattle.core_types.specs.Keyspace.{IsString};
ghost use Rattle.core_types.specs.declared.value.Value.TheVariants as value;
ghost use Rattle.module_laws.specs.Told.{KeepsTypes};
ghost use Rattle.module_laws.specs.Types.{is_kept};
ghost use mir.Syntax.{named};
ghost use Rattle.key_handle.specs.contracts.handle.Handle.{the_row};
ghost use Rattle.key_handle.specs.declared.handle.Mode.TheVariants as mode;
ghost use Rattle.key_handle.specs.Opened.{HasFault, MayDelete, MayLend, MayPut, key_deleted, key_entry, key_kind, key_value, native_changed, native_put, opened};

use crate::fault::HandleFault;
use core_types::Kind;
use module_laws::{Context, KeyFault, SetBack, SetFault, Viewed};
use std::alloc::Global;
use std::marker::PhantomData;

/// What a key is opened for.
#[derive(Clone, Copy, Debug, PartialEq, Eq)]
pub enum Mode {
    /// For reading.
    Read,
    /// For reading and writing.
    Write,
}

/// A key of a context, opened for reading or for writing.
pub struct Handle<'a, C, V: Viewed> {
    ctx: &'a mut C,
    key: &'a [u8],
    mode: Mode,
    of: PhantomData<V>,
}

impl<'a, V: Viewed, C: Context<V>> Handle<'a, C, V> {
    /// Opens a key, whether it is there or not.
    pub fn open_key(ctx: &'a mut C, key: &'a [u8], mode: Mode) -> Handle<'a, C, V>
        ensures opened { opened C.told C.held C.typed result ≡ record {
          told = C.told ctx.old;
          held = C.held ctx.old;
          typed = C.typed ctx.old;
          reference = ctx.entry.ghost_name;
          key = key.now;
          mode = mode;
        } }
    {
        Handle {
            ctx,
            key,
            mode,
            of: PhantomData,
        }
    }

    /// The kind of its value, or `None` where it is not there.
    pub fn kind(&self) -> Option<Kind>
        ensures kind { result ≡ key_kind (opened C.told C.held C.typed self.now) }
    {
        self.ctx.kind(self.key)
    }

    /// Its value. Never answers `ReadOnly` or `Memory`.
    pub fn native(&self) -> Result<&V, HandleFault>
        ensures value { IfOk result (λ lent.
            key_value (opened C.told C.held C.typed self.now)
            ≡ Some (value.Native (V.native lent.now))) }
        ensures fault { IfErr result (HasFault V.types (opened C.told C.held C.typed self.now)) }
    {
        match self.ctx.native(self.key) {
            Ok(value) => Ok(value),
            Err(KeyFault::Empty) => Err(HandleFault::Empty),
            Err(KeyFault::NotOurs(kind)) => Err(HandleFault::NotOurs(kind)),
        }
    }

    /// Its value, to be changed in place. A value of another type that is written there is told: not
    /// each value then has the type that it was put in with.
    pub fn native_mut(&mut self, alloc: Global) -> Result<&mut V, HandleFault>
        ensures value { IfOk result (λ lent.
            key_value (opened C.told C.held C.typed self.old)
            ≡ Some (value.Native (V.native lent.now))) }
        ensures ok { OnOk result ((opened C.told C.held C.typed self.old).mode ≡ mode.Write) }
        ensures fault { IfErr result (MayLend V.types (opened C.told C.held C.typed self.old)) }
        ensures* lends { sem 𝓛 (LendsSoOk
            (the_row (record { mir = named 1; lft = [] }) C.row V.row) V.row self.entry result
            (λ end value. (opened C.told C.held C.typed end ≡ native_changed (V.native value)
            (opened C.told C.held C.typed end).typed (opened C.told C.held C.typed self.old))
            × KeepsTypes (V.native value) (key_value (opened C.told C.held C.typed self.old))
            (opened C.told C.held C.typed self.old).typed (opened C.told C.held C.typed end).typed)
            (λ end. opened C.told C.held C.typed end ≡ opened C.told C.held C.typed self.old)) }
    {
        if self.mode == Mode::Read {
            return Err(HandleFault::ReadOnly);
        }
        let key = self.key;
        Ok(self.ctx.native_mut(alloc, key)?)
    }

    /// Puts a value in, in place of what the key had. A value that is refused comes back.
    pub fn set_native(&mut self, alloc: Global, value: V) -> Result<(), SetBack<V>>
        requires key { IsString (opened C.told C.held C.typed self.old).key }
        requires kept { is_kept V.types (V.native value) ≡ true }
        ensures ok { OnOk result (opened C.told C.held C.typed self.new ≡ native_put (V.native value)
            (opened C.told C.held C.typed self.new).told.has_serial
            (opened C.told C.held C.typed self.old)) }
        ensures open { OnOk result ((opened C.told C.held C.typed self.old).mode ≡ mode.Write) }
        ensures back { IfErr result (λ back. (back.value ≡ value)
            × MayPut (opened C.told C.held C.typed self.old) back.fault) }
        ensures err { OnErr result
            (opened C.told C.held C.typed self.new ≡ opened C.told C.held C.typed self.old) }
    {
        let fault = SetFault::ReadOnly;
        match self.mode {
            Mode::Read => Err(SetBack { fault, value }),
            Mode::Write => self.ctx.set_native(alloc, self.key, value),
        }
    }

    /// Removes the key, whatever it has, and says whether it was there.
    pub fn delete(&mut self, alloc: Global) -> Result<bool, HandleFault>
        ensures there { IfOk result (λ there. there
            ≡ is_some (key_entry (opened C.told C.held C.typed self.old))) }
        ensures ok { OnOk result
            (opened C.told C.held C.typed self.new
            ≡ key_deleted (opened C.told C.held C.typed self.old)) }
        ensures open { OnOk result ((opened C.told C.held C.typed self.old).mode ≡ mode.Write) }
        ensures fault { IfErr result (MayDelete (opened C.told C.held C.typed self.old)) }
        ensures err { OnErr result
            (opened C.told C.held C.typed self.new ≡ opened C.told C.held C.typed self.old) }
    {
        if self.mode == Mode::Read {
            return Err(HandleFault::ReadOnly);
        }
        match self.ctx.delete(alloc, self.key) {
            Ok(there) => Ok(there),
            Err(_) => Err(HandleFault::Memory),
        }
    }

    /// Closes it. What it changed stays.
    pub fn close(self)
        ensures same { self.exit.0.now ≡ self.entry.ctx.now }
    {
        let Handle {
            ctx: _,
            key: _,
            mode: _,
            of: _,
        } = self;
    }
}
