//! The ports of a FEATURES_REPLY in the order in which a slice is shown them.

ghost use Rattle.std.specs.Prelude.{◌≡◌, ◌++◌, ◌*◌, ◌/◌, ◌≤◌, IsTrue, IfOk, OnOk, length, take, drop};
ghost use Rattle.of10_port.specs.Features.{has_whole_ports};
ghost use Rattle.of10_port.specs.Ports.{port_bytes, ports_in};
ghost use Rattle.port_turns.specs.Sent.{descent, in_number_order, ports_sorted};

use of10_ctl::Frame;
use of10_port::{Port, ports_in, put_ports};
use std::alloc::{AllocError, Global};
use std::cmp::Reverse;

/// Bytes of a FEATURES_REPLY in front of its ports (OpenFlow 1.0.0, section 5.3.1).
const FRONT: usize = 32;

/// Bytes of a port (OpenFlow 1.0.0, section 5.2.1).
const PORT: usize = 48;

// A port of a smaller number comes first.
fn rank(port: &Port) -> Reverse<u16>
    ensures { result ≡ record { 0 = descent port.now } }
{
    Reverse(u16::MAX - port.number())
}

fn in_number_order(ports: Vec<Port>) -> Result<Vec<Port>, AllocError>
    ensures value { IfOk result (λ v. v.items ≡ in_number_order ports.items) }
    ensures count { IfOk result (λ v. length v.items ≡ length ports.items) }
{
    let mut sorted = ports;
    sorted.sort_by_key(|port| rank(port))?;
    Ok(sorted)
}

/// The ports of these bytes.
fn copied(alloc: Global, raws: &[[u8; PORT]]) -> Result<Vec<Port>, AllocError>
    ensures { IfOk result (λ v. v.items ≡ raws.now) }
{
    let mut ports = Vec::with_capacity(alloc, raws.len())?;
    for raw in raws {
        ports.push(Port::of(*raw))?;
    }
    Ok(ports)
}

/// The ports behind the front of a message, sorted.
fn sorted_ports(alloc: Global, bytes: &[u8]) -> Result<Vec<Port>, AllocError>
    requires { 32 ≤ length bytes.now }
    ensures value { IfOk result (λ v. v.items ≡ in_number_order (ports_in (drop 32 bytes.now))) }
    ensures count { IfOk result (λ v. length v.items ≡ length (drop 32 bytes.now) / 48) }
{
    let raws = ports_in(&bytes[FRONT..]);
    let ports = copied(alloc, raws)?;
    in_number_order(ports)
}

/// The front of a message, and these ports.
fn message_with(alloc: Global, bytes: &[u8], ports: &[Port]) -> Result<Vec<u8>, AllocError>
    requires { 32 ≤ length bytes.now }
    ensures value { IfOk result (λ v. v.items ≡ take 32 bytes.now ++ port_bytes ports.now) }
    ensures size { IfOk result (λ v. length (port_bytes ports.now) ≡ 48 * length ports.now) }
{
    let mut sorted = Vec::with_capacity(alloc, bytes.len())?;
    sorted.extend_from_slice(&bytes[..FRONT])?;
    put_ports(&mut sorted, ports)?;
    Ok(sorted)
}

/// The ports of a message that tells them stand in ascending order of their numbers, and those of one number as
/// they stood.
pub(crate) fn sort_ports(alloc: Global, frame: &mut Frame) -> Result<(), AllocError>
    requires long { 32 ≤ length frame.old }
    requires whole { IsTrue (has_whole_ports frame.old) }
    ensures { OnOk result (frame.new ≡ ports_sorted frame.old) }
{
    let bytes = frame.as_slice();
    let ports = sorted_ports(alloc, bytes)?;
    let sorted = message_with(alloc, bytes, &ports)?;
    *frame = Frame::of(sorted);
    Ok(())
}
