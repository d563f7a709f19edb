//! Actions, and lists of them (OpenFlow 1.0.0, section 5.2.4).

ghost use Rattle.std.specs.Prelude.{◌≡◌, IfOk};
ghost use Rattle.std.specs.List.{All};
ghost use Rattle.of10_action.specs.Actions.{HasAddress};

use std::alloc::{AllocError, Global};
use std::marker::Model;

/// What a switch does with a packet (OpenFlow 1.0.0, section 5.2.4). Hardware addresses are below 2^48.
#[derive(Clone, Copy, Debug, PartialEq, Eq)]
pub enum Action {
    /// Sends the packet out of a port; to the controller at most `max_len` bytes of it.
    Output { port: u16, max_len: u16 },
    SetVlanVid(u16),
    SetVlanPcp(u8),
    StripVlan,
    SetDlSrc(u64),
    SetDlDst(u64),
    SetNwSrc(u32),
    SetNwDst(u32),
    SetNwTos(u8),
    SetTpSrc(u16),
    SetTpDst(u16),
    /// Sends the packet out of a port through one of its queues.
    Enqueue { port: u16, queue: u32 },
}

/// A list of bytes.
#[derive(Debug, Drop)]
pub struct Bytes {
    items: Vec<u8>,
}

impl Model for Bytes {
    ghost use Rattle.std.specs.Prelude.{ℕ, List};

    ghost Value = { List ℕ };

    ghost view = { λ b. b.items.items };
}

impl Bytes {
    /// A copy of the bytes.
    pub fn of(alloc: Global, items: &[u8]) -> Result<Bytes, AllocError>
        ensures { IfOk result (λ b. b ≡ items.now) }
    {
        Ok(Bytes {
            items: Vec::from_slice(alloc, items)?,
        })
    }

    /// The same bytes, with no copy.
    pub fn from_vec(items: Vec<u8>) -> Bytes
        ensures { result ≡ items.items }
    {
        Bytes { items }
    }

    pub fn as_slice(&self) -> &[u8]
        ensures { result.now ≡ self.now }
    {
        &self.items
    }

    /// The same bytes, with no copy.
    pub fn into_vec(self) -> Vec<u8>
        ensures { result.items ≡ self }
    {
        self.items
    }
}

/// A list of actions whose hardware addresses are below 2^48.
#[derive(Debug, Drop)]
pub struct Actions {
    items: Vec<Action>,
}

impl Model for Actions {
    ghost use Rattle.std.specs.Prelude.{List};
    ghost use Rattle.std.specs.List.{All};
    ghost use Rattle.of10_action.specs.declared.action.Action.{Action};

    ghost Value = { List Action };

    ghost use Rattle.of10_action.specs.Actions.{HasAddress};

    ghost view = { λ a. a.items.items };

    ghost invariant = { λ a. All HasAddress a.items.items };
}

impl Actions {
    /// A copy of the actions.
    pub fn of(alloc: Global, items: &[Action]) -> Result<Actions, AllocError>
        requires { All HasAddress items.now }
        ensures { IfOk result (λ a. a ≡ items.now) }
    {
        Ok(Actions {
            items: Vec::from_slice(alloc, items)?,
        })
    }

    /// The same actions, with no copy.
    pub fn from_vec(items: Vec<Action>) -> Actions
        requires { All HasAddress items.items }
        ensures { result ≡ items.items }
    {
        Actions { items }
    }

    pub fn as_slice(&self) -> &[Action]
        ensures value { result.now ≡ self.now }
        ensures addresses { All HasAddress self.now }
    {
        &self.items
    }

    /// The same actions, with no copy.
    pub fn into_vec(self) -> Vec<Action>
        ensures value { result.items ≡ self }
        ensures addresses { All HasAddress self }
    {
        self.items
    }
}
