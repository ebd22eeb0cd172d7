ghost use Rattle.std.specs.Prelude.{◌≡◌, ◌≤◌, ◌<◌, ◌+◌, ◌^◌, IfOk, IfSome, slice_set};
ghost use Rattle.std.specs.Borrow.{sem};
ghost use Rattle.session_table.specs.Sessions.{IsTable, free, fresh_session, none_held, running_in, session_after_epoch, session_at, with_session};

use crate::Session;
use std::alloc::Global;
use std::marker::Model;
use xom_base::{ImageId, Key256, NoMemory};

/// How many slots there are. They are numbered from 1.
pub const SLOTS: u8 = 16;

/// The sessions of all slots, and the last install number given.
#[derive(Drop)]
pub struct Table {
    sessions: Vec<Session>,
    installs: u64,
}

impl Model for Table {
    ghost use Rattle.session_table.specs.Sessions.{IsTable, Sessions};

    ghost Value = { Sessions };

    ghost view = { λ t. record { list = t.sessions.items; installs = t.installs } };

    ghost invariant = { λ t. IsTable t.sessions.items };
}

impl Table {
    ghost use Rattle.session_table.specs.Lending.{LendsSession};

    /// All slots free, and no install number given.
    pub fn new(alloc: Global) -> Result<Table, NoMemory>
        ensures { IfOk result (λ t. t ≡ record { list = none_held; installs = 0 }) }
    {
        Ok(Table {
            sessions: no_sessions(alloc)?,
            installs: 0,
        })
    }

    /// The session of a slot, 1 to 16, or the free one at 0, the null compartment.
    pub fn session(&self, slot: u8) -> &Session
        requires { slot ≤ 16 }
        ensures { result.now ≡ session_at self.now.list slot }
    {
        &self.sessions[usize::from(slot)]
    }

    /// The session of a slot, 1 to 16, to be written.
    pub fn session_mut(&mut self, slot: u8) -> &mut Session
        requires some { 1 ≤ slot }
        requires known { slot ≤ 16 }
        ensures* writes_back { sem 𝓛 (LendsSession self.entry slot result) }
        ensures value { result.now ≡ session_at self.old.list slot }
    {
        &mut self.sessions[usize::from(slot)]
    }

    /// The slot whose guest runs, if one does: the least one.
    pub fn running(&self) -> Option<u8>
        ensures value { result ≡ running_in self.now.list }
        ensures slot { IfSome result (λ slot. (1 ≤ slot) × (slot ≤ 16)) }
    {
        let place = running_place(&self.sessions)?;
        Some(place as u8)
    }

    /// The last install number given, 0 before any.
    pub fn installs(&self) -> u64
        ensures { result ≡ self.now.installs }
    {
        self.installs
    }

    /// Makes a slot, 1 to 16, hold a fresh guest under the next install number, and answers that.
    pub fn install(&mut self, slot: u8, id: ImageId, key: Key256, entry: u32, lines: u32) -> u64
        requires some { 1 ≤ slot }
        requires known { slot ≤ 16 }
        requires number { self.old.installs < 2 ^ 63 }
        ensures number { result ≡ self.old.installs + 1 }
        ensures table { self.new ≡ record { list = slice_set self.old.list slot (fresh_session (self.old.installs + 1) id key entry lines); installs = self.old.installs + 1 } }
    {
        let number = self.installs + 1;
        self.sessions[usize::from(slot)] = Session::fresh(number, id, key, entry, lines);
        self.installs = number;
        number
    }

    /// Makes a slot, 1 to 16, free: its session is zeros, with no kept pair.
    pub fn kill(&mut self, slot: u8)
        requires some { 1 ≤ slot }
        requires known { slot ≤ 16 }
        ensures { self.new ≡ with_session self.old slot free }
    {
        self.sessions[usize::from(slot)] = Session::free();
    }

    /// Raises the epoch of a slot, 1 to 16, by one, so that old saves are of no use.
    pub fn renew(&mut self, slot: u8)
        requires some { 1 ≤ slot }
        requires known { slot ≤ 16 }
        requires number { (session_at self.old.list slot).epoch < 2 ^ 63 }
        ensures { self.new ≡ with_session self.old slot (session_after_epoch (session_at self.old.list slot)) }
    {
        self.sessions[usize::from(slot)].epoch += 1;
    }
}

fn running_place(sessions: &[Session]) -> Option<usize>
    ensures { result ≡ running_in sessions.now }
{
    sessions.iter().position(|s| s.state.is_running())
}

#[tactic(auto, unfolding(crate::specs::Sessions::none_held))]
fn no_sessions(alloc: Global) -> Result<Vec<Session>, NoMemory>
    ensures free { IfOk result (λ sessions. sessions.items ≡ none_held) }
    ensures table { IfOk result (λ sessions. IsTable sessions.items) }
{
    Ok(vec![in alloc; Session::free(); 17]?)
}
