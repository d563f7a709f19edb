//! Messages of a port that changed (OpenFlow 1.0.0, section 5.4.3).

ghost use Rattle.std.specs.Prelude.{◌≡◌, IfOk};
ghost use Rattle.of10_action.specs.Reading.{Reads};
ghost use Rattle.of10_ctl.specs.declared.kind.TheConstants.{PORT_STATUS};
ghost use Rattle.of10_ctl.specs.Kinds.{IsOf};
ghost use Rattle.of10_port.specs.PortStatus.{IsPortStatus, status_of, spell_port_status, read_port_status};

use crate::port::Port;
use of10_action::WireFault;
use of10_ctl::kind::PORT_STATUS;
use of10_ctl::{Frame, begin};
use std::alloc::{AllocError, Global};

/// Bytes of the message, the header counted (OpenFlow 1.0.0, section 5.4.3).
const SIZE: usize = 64;

/// How a port changed (OpenFlow 1.0.0, section 5.4.3).
#[derive(Clone, Copy, Debug, PartialEq, Eq)]
pub struct PortStatus {
    /// 0 where the port was added, 1 where it was deleted, 2 where it was modified.
    pub reason: u8,
    pub port: Port,
}

/// The same where it lies, as in the frame that carries it: the port is copied for who asks for it.
#[derive(Clone, Copy)]
pub struct PortStatusView<'a> {
    bytes: &'a [u8; SIZE],
}

impl<'a> PortStatusView<'a> {
    /// What the message says; `Length` where it doesn't have 64 bytes (OpenFlow 1.0.0, section 5.4.3). Takes no
    /// memory.
    #[tactic(auto, unfolding(crate::specs::PortStatus::read_port_status))]
    pub fn decode(frame: &'a Frame) -> Result<PortStatusView<'a>, WireFault>
        requires { IsOf PORT_STATUS frame.now }
        ensures exact { Reads status_of result (read_port_status frame.now) }
        ensures range { IfOk result (λ view. IsPortStatus (status_of view)) }
    {
        let bytes = frame.as_slice();
        match <&[u8; SIZE]>::try_from(bytes) {
            Ok(bytes) => Ok(PortStatusView { bytes }),
            Err(_) => Err(WireFault::Length(bytes.len() as u16)),
        }
    }

    /// What it says.
    pub fn status(&self) -> PortStatus
        ensures value { result ≡ status_of self.now }
        ensures range { IsPortStatus result }
    {
        let bytes = self.bytes;
        let mut raw = [0; 48];
        raw.copy_from_slice(&bytes[16..]);
        PortStatus {
            reason: bytes[8],
            port: Port::of(raw),
        }
    }
}

impl PortStatus {
    /// What the message says; `Length` where it doesn't have 64 bytes (OpenFlow 1.0.0, section 5.4.3).
    pub fn decode(frame: &Frame) -> Result<PortStatus, WireFault>
        requires { IsOf PORT_STATUS frame.now }
        ensures exact { Reads (λ x. x) result (read_port_status frame.now) }
        ensures range { IfOk result (λ s. IsPortStatus s) }
    {
        match PortStatusView::decode(frame) {
            Ok(view) => Ok(view.status()),
            Err(fault) => Err(fault),
        }
    }

    /// The message that says this, of version 1 (OpenFlow 1.0.0, section 5.4.3).
    #[tactic(auto, using(crate::proofs::Written::status_written))]
    pub fn encode(&self, alloc: Global, xid: u32) -> Result<Frame, AllocError>
        ensures value { IfOk result (λ f. f ≡ spell_port_status self.now xid) }
        ensures kind { IfOk result (λ f. IsOf PORT_STATUS f) }
    {
        let mut bytes = begin(alloc, PORT_STATUS, xid, SIZE - 8)?;
        bytes.extend_from_slice(&[self.reason, 0, 0, 0, 0, 0, 0, 0])?;
        bytes.extend_from_slice(self.port.raw())?;
        Ok(Frame::of(bytes))
    }
}
