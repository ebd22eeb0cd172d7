ghost use Rattle.std.specs.Prelude.{◌≡◌, ◌<◌, ◌^◌};
ghost use Rattle.session_table.specs.Sessions.{free, fresh_session as fresh_of, is_live, is_running, session_after_enter, session_after_leaving, session_after_pause, session_after_resume};

use xom_base::{ImageId, Key256, Rule};

/// Where a slot's guest stands.
#[derive(Clone, Copy, Debug, PartialEq, Eq)]
pub enum SlotState {
    /// The slot holds no guest.
    Free,
    /// The guest was installed and hasn't run.
    Fresh,
    /// It runs.
    Running,
    /// It left and may be resumed.
    Paused,
    /// It ended by `xexit`.
    Ended,
    /// It was stopped for good by a rule.
    Stopped(Rule),
}

/// The session of a slot, kept on chip.
#[derive(Clone, Copy)]
pub struct Session {
    /// The number of its install, from 1.
    pub install: u64,
    /// Whose image it runs.
    pub id: ImageId,
    /// The image's key.
    pub key: Key256,
    /// The address of its first instruction.
    pub entry: u32,
    /// How many lines of 32 bytes its image has, at most 32,768.
    pub lines: u32,
    /// The address of the next instruction.
    pub pc: u32,
    /// The address of the one after it.
    pub npc: u32,
    /// The cells that it owns: bit r is cell r.
    pub mask: u64,
    /// How often it left and came back, so that old saves are of no use.
    pub epoch: u64,
    /// Where signals are handled, 0 for nowhere.
    pub handler: u32,
    /// The pair at which the guest goes on after a signal, while one is handled.
    pub saved: Option<(u32, u32)>,
    /// Where it stands.
    pub state: SlotState,
}

/// What a kernel is told of a slot: no key, and not where the guest stands.
#[derive(Clone, Copy)]
pub struct SlotView {
    /// Where the guest stands.
    pub state: SlotState,
    /// The number of its install, 0 for a free slot.
    pub install: u64,
    /// Whose image it runs.
    pub id: ImageId,
    /// The address of its first instruction.
    pub entry: u32,
    /// How many lines of 32 bytes its image has.
    pub lines: u32,
    /// The cells that it owns: bit r is cell r.
    pub mask: u64,
    /// How often it left and came back.
    pub epoch: u64,
    /// Whether a signal can be delivered to it.
    pub signal_ready: bool,
}

impl SlotState {
    /// Whether the slot holds a guest that may run on.
    pub fn is_live(&self) -> bool
        ensures { result ≡ is_live self.now }
    {
        matches!(
            self,
            SlotState::Fresh | SlotState::Running | SlotState::Paused
        )
    }

    /// Whether the slot's guest is the one that runs.
    pub fn is_running(&self) -> bool
        ensures { result ≡ is_running self.now }
    {
        matches!(self, SlotState::Running)
    }
}

impl Session {
    /// The session of a free slot.
    pub fn free() -> Session
        ensures { result ≡ free }
    {
        Session {
            install: 0,
            id: ImageId([0; 16]),
            key: Key256([0; 32]),
            entry: 0,
            lines: 0,
            pc: 0,
            npc: 0,
            mask: 0,
            epoch: 0,
            handler: 0,
            saved: None,
            state: SlotState::Free,
        }
    }

    /// A guest that was just installed under this number.
    pub fn fresh(install: u64, id: ImageId, key: Key256, entry: u32, lines: u32) -> Session
        ensures { result ≡ fresh_of install id key entry lines }
    {
        Session {
            install,
            id,
            key,
            entry,
            lines,
            state: SlotState::Fresh,
            ..Session::free()
        }
    }

    /// The guest started at its entry.
    pub fn entered(&self) -> Session
        ensures { result ≡ session_after_enter self.now }
    {
        let entry = self.entry;
        Session {
            pc: entry,
            npc: entry.wrapping_add(4),
            state: SlotState::Running,
            ..*self
        }
    }

    /// The guest going on where it was.
    pub fn resumed(&self) -> Session
        ensures { result ≡ session_after_resume self.now }
    {
        Session {
            state: SlotState::Running,
            ..*self
        }
    }

    /// The guest after it left to come back, under the next epoch.
    pub fn paused(&self) -> Session
        requires { self.now.epoch < 2 ^ 63 }
        ensures { result ≡ session_after_pause self.now }
    {
        let epoch = self.epoch;
        Session {
            epoch: epoch + 1,
            state: SlotState::Paused,
            ..*self
        }
    }

    /// The guest after it left for good, ended or stopped.
    pub fn left(&self, state: SlotState) -> Session
        ensures { result ≡ session_after_leaving self.now state }
    {
        Session { state, ..*self }
    }
}
