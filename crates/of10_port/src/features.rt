//! The features of a switch (OpenFlow 1.0.0, section 5.3.1).

ghost use Rattle.std.specs.Prelude.{◌≡◌, ◌++◌, ◌*◌, ◌/◌, ◌≤◌, IsTrue, IfOk, OnOk, length};
ghost use Rattle.of10_action.specs.Reading.{Gives, Reads};
ghost use Rattle.of10_action.specs.declared.fault.DecodeFault.TheVariants.{Memory};
ghost use Rattle.of10_ctl.specs.declared.kind.TheConstants.{FEATURES_REPLY};
ghost use Rattle.of10_ctl.specs.Kinds.{IsOf};
ghost use Rattle.std.specs.List.{All};
ghost use Rattle.of10_port.specs.Ports.{IsPort, port_bytes, ports_in};
ghost use Rattle.of10_port.specs.Features.{IsFeatures, features_of, features_front, has_whole_ports, spell_features, read_features};

use crate::port::{Port, Ports, put_ports};
use of10_action::{DecodeFault, WireFault};
use of10_ctl::kind::FEATURES_REPLY;
use of10_ctl::{Frame, begin};
use of10_model::wire::{put_u32, put_u64, u32_at, u64_at};
use std::alloc::{AllocError, Global};

/// Bytes in front of the ports, the header counted (OpenFlow 1.0.0, section 5.3.1).
const FRONT: usize = 32;

/// Bytes of a port (OpenFlow 1.0.0, section 5.2.1).
const PORT: usize = 48;

/// What a switch says of itself (OpenFlow 1.0.0, section 5.3.1).
#[derive(Debug, Drop)]
pub struct Features {
    /// The number of the switch's datapath (datapath_id).
    pub datapath: u64,
    /// How many packets it can hold for a controller (n_buffers).
    pub buffers: u32,
    /// How many flow tables it has (n_tables).
    pub tables: u8,
    /// What it can do beside forwarding, a bit for each.
    pub capabilities: u32,
    /// The actions that it knows, a bit for each.
    pub actions: u32,
    pub ports: Ports,
}

/// Whether a FEATURES_REPLY has its front and whole ports behind it, and so is well formed.
pub fn has_whole_ports(bytes: &[u8]) -> bool
    ensures value { result ≡ has_whole_ports bytes.now }
    ensures long { IsTrue result → 32 ≤ length bytes.now }
{
    bytes.len() >= FRONT && (bytes.len() - FRONT) % PORT == 0
}

/// What a switch says of itself (OpenFlow 1.0.0, section 5.3.1), with the bytes of its ports where they lie, as in
/// the frame that carries them: nothing is copied.
#[derive(Clone, Copy)]
pub struct FeaturesView<'a> {
    /// The number of the switch's datapath (datapath_id).
    pub datapath: u64,
    /// How many packets it can hold for a controller (n_buffers).
    pub buffers: u32,
    /// How many flow tables it has (n_tables).
    pub tables: u8,
    /// What it can do beside forwarding, a bit for each.
    pub capabilities: u32,
    /// The actions that it knows, a bit for each.
    pub actions: u32,
    pub ports: &'a [[u8; PORT]],
}

/// The bytes of each port, 48 for each; what is left behind the last whole one is passed over.
pub fn ports_in(bytes: &[u8]) -> &[[u8; PORT]]
    ensures value { result.now ≡ ports_in bytes.now }
    ensures count { length result.now ≡ length bytes.now / 48 }
{
    let (ports, _) = bytes.as_chunks::<PORT>();
    ports
}

/// The ports of these bytes.
fn copied(alloc: Global, raws: &[[u8; PORT]]) -> Result<Ports, AllocError>
    ensures value { IfOk result (λ p. p ≡ raws.now) }
    ensures ports { IfOk result (λ p. All IsPort p) }
{
    let mut ports = Vec::with_capacity(alloc, raws.len())?;
    for raw in raws {
        ports.push(Port::of(*raw))?;
    }
    Ok(Ports::from_vec(ports))
}

impl<'a> FeaturesView<'a> {
    /// What the message says; `Length` where it doesn't have 32 bytes and 48 for each port (OpenFlow
    /// 1.0.0, section 5.3.1). Takes no memory.
    #[tactic(auto, unfolding(crate::specs::Features::read_features))]
    pub fn decode(frame: &'a Frame) -> Result<FeaturesView<'a>, WireFault>
        requires { IsOf FEATURES_REPLY frame.now }
        ensures exact { Reads features_of result (read_features frame.now) }
        ensures few { IfOk result (λ view. length view.ports.now ≤ 1364) }
        ensures whole { IfOk result (λ _. IsTrue (has_whole_ports frame.now)) }
    {
        let bytes = frame.as_slice();
        if !has_whole_ports(bytes) {
            return Err(WireFault::Length(bytes.len() as u16));
        }
        Ok(FeaturesView {
            datapath: u64_at(bytes, 8),
            buffers: u32_at(bytes, 16),
            tables: bytes[20],
            capabilities: u32_at(bytes, 24),
            actions: u32_at(bytes, 28),
            ports: ports_in(&bytes[FRONT..]),
        })
    }

    /// The same with a copy of the ports.
    pub fn copied(&self, alloc: Global) -> Result<Features, AllocError>
        ensures value { IfOk result (λ f. f ≡ features_of self.now) }
        ensures range { IfOk result (λ f. length self.now.ports.now ≤ 1364 → IsFeatures f) }
    {
        Ok(Features {
            datapath: self.datapath,
            buffers: self.buffers,
            tables: self.tables,
            capabilities: self.capabilities,
            actions: self.actions,
            ports: copied(alloc, self.ports)?,
        })
    }
}

impl Features {
    /// What the message says; `Length` where it doesn't have 32 bytes and 48 for each port (OpenFlow
    /// 1.0.0, section 5.3.1).
    pub fn decode(alloc: Global, frame: &Frame) -> Result<Features, DecodeFault>
        requires { IsOf FEATURES_REPLY frame.now }
        ensures exact { Gives (λ x. x) result (read_features frame.now) }
        ensures range { IfOk result (λ f. IsFeatures f) }
        ensures memory { result ≡ Err Memory → IsTrue (has_whole_ports frame.now) }
    {
        match FeaturesView::decode(frame) {
            Ok(view) => Ok(view.copied(alloc)?),
            Err(fault) => Err(DecodeFault::Wire(fault)),
        }
    }

    /// The message that says this, of version 1 (OpenFlow 1.0.0, section 5.3.1).
    pub fn encode(&self, alloc: Global, xid: u32) -> Result<Frame, AllocError>
        requires { length self.now.ports ≤ 1364 }
        ensures value { IfOk result (λ f. f ≡ spell_features self.now xid) }
        ensures kind { IfOk result (λ f. IsOf FEATURES_REPLY f) }
    {
        Ok(Frame::of(self.spelled(alloc, xid)?))
    }

    // The bytes of the message.
    #[tactic(auto, using(crate::proofs::Written::features_written))]
    fn spelled(&self, alloc: Global, xid: u32) -> Result<Vec<u8>, AllocError>
        requires { length self.now.ports ≤ 1364 }
        ensures value { IfOk result (λ v. v.items ≡ spell_features self.now xid) }
        ensures size { IfOk result (λ _. length (port_bytes self.now.ports) ≡ 48 * length self.now.ports) }
    {
        let ports = self.ports.as_slice();
        let mut bytes = begin(alloc, FEATURES_REPLY, xid, 24 + PORT * ports.len())?;
        self.put_front(&mut bytes)?;
        put_ports(&mut bytes, ports)?;
        Ok(bytes)
    }

    // Appends the fields in front of the ports.
    fn put_front(&self, out: &mut Vec<u8>) -> Result<(), AllocError>
        ensures { OnOk result (out.new.items ≡ out.old.items ++ features_front self.now) }
    {
        put_u64(out, self.datapath)?;
        put_u32(out, self.buffers)?;
        out.extend_from_slice(&[self.tables, 0, 0, 0])?;
        put_u32(out, self.capabilities)?;
        put_u32(out, self.actions)
    }
}
