//! The core of a host: the machine over its keys and its clients.

ghost use Rattle.std.specs.Prelude.{◌≡◌, ◌≢◌, ◌<◌, ◌≤◌, ◌++◌, ℕ, length, take, drop, min, true, Ok, Err, Some, IfOk, IfErr, OnOk, OnErr, IsOk, IsSome};
ghost use Rattle.core_types.specs.Keys.{no_keys, with_entry, without};
ghost use Rattle.core_types.specs.declared.event.Answer.TheVariants as answer;
ghost use Rattle.core_types.specs.declared.event.Event.TheVariants as event;
ghost use Rattle.core_types.specs.declared.stop.Stop.{Stop as Cause};
ghost use Rattle.core_types.specs.declared.stop.Stop.TheVariants as stops;
ghost use Rattle.effect_log.specs.Replay.{Refuses};
ghost use Rattle.effect_log.specs.Unit.{IsReplayable};
ghost use Rattle.effect_log.specs.declared.reason.Reason.{Reason};
ghost use Rattle.effect_log.specs.declared.replayer.ReplayStop.TheVariants as replaying;
ghost use Rattle.resp_codec.specs.ReplyText.{text};
ghost use Rattle.client_book.specs.Client.{passes};
ghost use Rattle.client_book.specs.Register.{changes, frees_all, free_of, listed, nobody, told_of};
ghost use Rattle.host_core.specs.Clients.{client_at, is_served};
ghost use Rattle.host_core.specs.Core.{AreJoined, IsServable, IsTurnedAway, KeepsClients};
ghost use Rattle.host_core.specs.Core.{Steps, state_of};
ghost use Rattle.host_core.specs.Replay.{replay};
ghost use Rattle.host_core.specs.inner.Giving.{heard, quiet, register_told};

use crate::expiring::expire;
use crate::given::Given;
use crate::loading::put;
use crate::names::all_names;
use crate::opening::copy_keys;
use crate::replaying::replay;
use crate::serving::serve;
use crate::{NoValue, Opening, Stepped};
use client_book::{Book, JoinFault};
use command_registry::Registry;
use core_types::{
    Answer, Args, BadRequest, Blob, ClientState, Effect, Event, NoMemory, Out, Outs, Reply, Stop,
    Value,
};
use effect_log::ReplayStop;
use key_store::KeyStore;
use resp_codec::bad_reply;
use std::alloc::Global;
use std::hash::RandomState;
use std::marker::Model;

/// The machine of a host: its keys, its moment, and its clients with what they are told.
#[derive(Drop)]
pub struct Core {
    keys: KeyStore<NoValue>,
    // In milliseconds.
    moment: u64,
    book: Book,
    names: Registry,
    hashing: RandomState,
    alloc: Global,
}

impl Model for Core {
    ghost use Rattle.host_core.specs.Core.{Held, held_code};
    ghost use Rattle.host_core.specs.inner.Names.{IsSound};

    ghost Value = { Held };

    ghost coded = { held_code };

    ghost view = { λ c. record { keys = c.keys; moment = c.moment; register = c.book } };

    ghost invariant = { λ c. IsSound c.names c.book };
}

impl Core {
    /// A core without keys and clients, at moment 0. New hashes hash their names with `hashing`.
    pub fn new(alloc: Global, hashing: RandomState) -> Result<Core, NoMemory>
        ensures empty { IfOk result
            (λ core. core ≡ record { keys = no_keys; moment = 0; register = nobody }) }
    {
        Ok(Core {
            keys: KeyStore::new(alloc),
            moment: 0,
            book: Book::new(alloc),
            names: all_names(alloc)?,
            hashing,
            alloc,
        })
    }

    /// The keys.
    pub fn keys(&self) -> &KeyStore<NoValue>
        ensures keys { result.now ≡ self.now.keys }
    {
        &self.keys
    }

    /// The clients. None is there whose number is above all that joined.
    pub fn book(&self) -> &Book
        ensures book { result.now ≡ self.now.register }
        ensures joined { AreJoined self.now.register }
    {
        &self.book
    }

    /// Makes one step. What it replies is told to the clients, who may take it after the next
    /// flush. It stops for want of memory alone: the clients and the moment are then as they were,
    /// nothing is said of the keys, and no further step may be asked for. A client that may not
    /// join is told so without memory.
    pub fn step(&mut self, event: &Event) -> Result<Stepped, Stop>
        requires servable { IsServable event.now }
        ensures steps { IfOk result
            (λ stepped. Steps self.old event.now stepped self.new) }
        ensures memory { IfErr result (λ stop. stop ≡ stops.Memory) }
        ensures turned_away { IsTurnedAway event.now self.old.register → IsOk result }
        ensures err { OnErr result (KeepsClients self.old self.new) }
    {
        match event {
            Event::Join(client) => Ok(self.join(*client)?),
            Event::Arrive(client, words) => Ok(self.arrive(*client, words)?),
            Event::Malformed(client, kind) => Ok(self.refuse(*client, kind)?),
            Event::Tick(shown) => Ok(self.tick(*shown)?),
            Event::Gone(client) => Ok(self.leave(*client)),
            Event::Unblock(_, _) => Ok(Stepped::answered(self.alloc, Answer::NeverIssued)),
            Event::Pump => Ok(Stepped::answered(self.alloc, Answer::NothingReady)),
            Event::Section(_, _) => Ok(Stepped::answered(self.alloc, Answer::NoModule)),
            Event::Flush | Event::RewriteBegin | Event::RewriteStep | Event::RewriteEnd => {
                Ok(Stepped::answered(self.alloc, Answer::Done))
            }
        }
    }

    /// Makes a change of a log again, at moment 0. It is refused as no effect where its command is
    /// unknown or may not stand in a log, and else as an effect without an answer where the command
    /// is answered by an error; the keys then stay. It stops for want of memory alone, and a part
    /// of the change may then be done. Clients and moment stay, whatever comes.
    pub fn replay(&mut self, effect: &Effect) -> Result<(), ReplayStop>
        requires replayable { IsReplayable effect.now }
        ensures ok { OnOk result (replay self.old.keys effect.now ≡ Ok self.new.keys) }
        ensures refused { (place : ℕ) (why : Reason) → result ≡ Err (replaying.Refused place why)
            → (place ≡ 0) × Refuses replay self.old.keys effect.now why }
        ensures same { (place : ℕ) (why : Reason) → result ≡ Err (replaying.Refused place why)
            → self.new.keys ≡ self.old.keys }
        ensures memory { (why : Cause) → result ≡ Err (replaying.Stopped why)
            → why ≡ stops.Memory }
        ensures clients { KeepsClients self.old self.new }
    {
        replay(
            self.alloc,
            self.hashing,
            &self.names,
            &mut self.keys,
            effect,
        )
    }

    /// Puts in a key that was read from elsewhere, with its value and its deadline, which is not 0.
    /// It stops for want of memory alone: all other keys are then as they were.
    pub fn put_loaded(
        &mut self,
        key: Blob,
        value: Value<NoValue>,
        deadline: Option<u64>,
    ) -> Result<(), Stop>
        requires positive { deadline ≢ Some 0 }
        ensures ok { OnOk result (self.new ≡ record self.old {
          keys = with_entry self.old.keys key (record { value = value; deadline = deadline });
        }) }
        ensures memory { IfErr result (λ stop. stop ≡ stops.Memory) }
        ensures others { OnErr result (without self.new.keys key ≡ without self.old.keys key) }
        ensures clients { KeepsClients self.old self.new }
    {
        Ok(put(self.alloc, &mut self.keys, key, value, deadline)?)
    }

    /// The state as it is, as plain data: of each client what it was told and has not taken.
    pub fn picture(&self) -> Result<Opening, NoMemory>
        ensures same { IfOk result (λ opening. opening ≡ state_of self.now) }
    {
        Ok(Opening {
            keys: copy_keys(self.alloc, &self.keys)?,
            moment: self.moment,
            clients: self.book.picture(self.alloc)?,
        })
    }

    /// All that every client was told may be taken from now on. Takes no memory.
    pub fn flush(&mut self)
        ensures freed { self.new ≡ record self.old { register = frees_all self.old.register } }
    {
        self.book.flush();
    }

    /// Moves the longest front of the bytes that a client may take, and that fits, and says how
    /// long it is. It is 0 for a client that is not there. Takes no memory.
    pub fn take_out(&mut self, client: u64, into: &mut [u8]) -> usize
        ensures count { result
            ≡ min (length into.old) (free_of (listed self.old.register client)) }
        ensures moved { into.new
            ≡ take result (told_of (listed self.old.register client)) ++ drop result into.old }
        ensures left { self.new
            ≡ record self.old { register = changes (passes result) client self.old.register } }
    {
        self.book.take_out(client, into)
    }

    /// Ends the core. Takes no memory.
    pub fn close(self) {}

    // Whether a client is there, and is still served.
    fn serves(&self, client: u64) -> bool
        ensures served { result ≡ is_served (client_at (state_of self.now).clients client) }
        ensures there { result ≡ true → IsSome (listed self.now.register client) }
    {
        match self.book.state(client) {
            ClientState::Connected => true,
            ClientState::Closing => false,
            ClientState::Absent => false,
        }
    }

    // A client comes.
    fn join(&mut self, client: u64) -> Result<Stepped, NoMemory>
        ensures steps { IfOk result
            (λ stepped. Steps self.old (event.Join client) stepped self.new) }
        ensures turned_away { client ≤ self.old.register.last → IsOk result }
        ensures err { OnErr result (KeepsClients self.old self.new) }
    {
        if let Err(fault) = self.book.join(client) {
            return not_joined(self.alloc, fault);
        }
        Ok(Stepped::answered(self.alloc, Answer::Done))
    }

    // A request comes.
    fn arrive(&mut self, client: u64, words: &Args) -> Result<Stepped, NoMemory>
        requires some { 0 < length words.now }
        ensures steps { IfOk result
            (λ stepped. Steps self.old (event.Arrive client words.now) stepped self.new) }
        ensures err { OnErr result (KeepsClients self.old self.new) }
    {
        if !self.serves(client) {
            return Ok(Stepped::answered(self.alloc, Answer::NoClient));
        }
        let (alloc, hashing, moment) = (self.alloc, self.hashing, self.moment);
        let given = serve(alloc, hashing, &self.names, &mut self.keys, moment, words)?;
        self.tell(client, given)
    }

    // What comes is no request.
    fn refuse(&mut self, client: u64, kind: &BadRequest) -> Result<Stepped, NoMemory>
        ensures steps { IfOk result
            (λ stepped. Steps self.old (event.Malformed client kind.now) stepped self.new) }
        ensures err { OnErr result (KeepsClients self.old self.new) }
    {
        if !self.serves(client) {
            return Ok(Stepped::answered(self.alloc, Answer::NoClient));
        }
        let reply = bad_reply(self.alloc, kind)?;
        self.tell(
            client,
            Given {
                closes: true,
                ..Given::replying(self.alloc, reply)
            },
        )
    }

    // The clock shows a moment.
    fn tick(&mut self, shown: u64) -> Result<Stepped, NoMemory>
        ensures steps { IfOk result
            (λ stepped. Steps self.old (event.Tick shown) stepped self.new) }
        ensures err { OnErr result (KeepsClients self.old self.new) }
    {
        let moment = self.moment.max(shown);
        let effects = expire(self.alloc, &mut self.keys, moment)?;
        self.moment = moment;
        Ok(Stepped {
            effects,
            ..Stepped::answered(self.alloc, Answer::Done)
        })
    }

    // A client goes.
    fn leave(&mut self, client: u64) -> Stepped
        ensures steps { Steps self.old (event.Gone client) result self.new }
    {
        if let ClientState::Absent = self.book.state(client) {
            return Stepped::answered(self.alloc, Answer::NoClient);
        }
        self.book.drop_client(client);
        Stepped::answered(self.alloc, Answer::Done)
    }

    // Tells a client what serving gave.
    fn tell(&mut self, client: u64, given: Given) -> Result<Stepped, NoMemory>
        requires there { IsSome (listed self.old.register client) }
        ensures told { IfOk result (λ stepped. stepped ≡ heard client given) }
        ensures held { OnOk result (self.new ≡ record self.old {
          register = register_told given.closes (text given.reply) client self.old.register;
        }) }
        ensures err { OnErr result (self.new ≡ self.old) }
    {
        let Given {
            reply,
            effects,
            closes,
        } = given;
        let mut out = Vec::with_capacity(self.alloc, 1)?;
        tell(&mut self.book, client, &reply, closes)?;
        out.push_reserved(Out { client, reply });
        Ok(Stepped {
            out: Outs::from_vec(out),
            effects,
            ..Stepped::answered(self.alloc, Answer::Done)
        })
    }
}

// A client does not join.
fn not_joined(alloc: Global, fault: JoinFault) -> Result<Stepped, NoMemory>
    ensures stale { IfOk result (λ stepped. (fault ≡ JoinFault.Stale)
        × (stepped ≡ quiet answer.StaleClient)) }
    ensures turned_away { fault ≡ JoinFault.Stale → IsOk result }
{
    match fault {
        JoinFault::Stale => Ok(Stepped::answered(alloc, Answer::StaleClient)),
        JoinFault::Memory => Err(NoMemory),
    }
}

// Tells a client a reply, and serves it no longer where this is so.
fn tell(book: &mut Book, client: u64, reply: &Reply, closes: bool) -> Result<(), NoMemory>
    requires there { IsSome (listed book.old client) }
    ensures ok { OnOk result
        (book.new ≡ register_told closes (text reply.now) client book.old) }
    ensures err { OnErr result (book.new ≡ book.old) }
{
    book.hold(client, reply)?;
    if closes {
        book.set_closing(client);
    }
    Ok(())
}
