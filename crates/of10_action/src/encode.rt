//! Actions are written.

ghost use Rattle.std.specs.Prelude.{◌≡◌, ◌<◌, ◌^◌, ◌++◌, OnOk, OnErr, length, take};
ghost use Rattle.std.specs.List.{All};
ghost use Rattle.byteorder.specs.Endian.{big_bytes};
ghost use Rattle.of10_action.specs.Actions.{HasAddress, kind_of, size_of, padding, body_of, spell, spelling};

use crate::action::Action;
use of10_model::wire::{put_u16, put_u32, put_u48};
use std::alloc::AllocError;

fn kind(action: &Action) -> u16
    ensures { result ≡ kind_of action.now }
{
    match action {
        Action::Output { .. } => 0,
        Action::SetVlanVid(_) => 1,
        Action::SetVlanPcp(_) => 2,
        Action::StripVlan => 3,
        Action::SetDlSrc(_) => 4,
        Action::SetDlDst(_) => 5,
        Action::SetNwSrc(_) => 6,
        Action::SetNwDst(_) => 7,
        Action::SetNwTos(_) => 8,
        Action::SetTpSrc(_) => 9,
        Action::SetTpDst(_) => 10,
        Action::Enqueue { .. } => 11,
    }
}

/// Bytes that an action of the kind takes.
pub(crate) fn size(kind: u16) -> u16
    ensures { result ≡ size_of kind }
{
    match kind {
        4 | 5 | 11 => 16,
        _ => 8,
    }
}

// Where a call here fails, what was in `out` still stands in front.
fn put_address(out: &mut Vec<u8>, address: u64) -> Result<(), AllocError>
    requires { address < 2 ^ 48 }
    ensures ok { OnOk result (out.new.items ≡ out.old.items ++ (big_bytes 6 address ++ padding 6)) }
    ensures err { OnErr result (take (length out.old.items) out.new.items ≡ out.old.items) }
{
    put_u48(out, address)?;
    out.extend_from_slice(&[0; 6])
}

fn put_body(out: &mut Vec<u8>, action: &Action) -> Result<(), AllocError>
    requires { HasAddress action.now }
    ensures ok { OnOk result (out.new.items ≡ out.old.items ++ body_of action.now) }
    ensures err { OnErr result (take (length out.old.items) out.new.items ≡ out.old.items) }
{
    match *action {
        Action::Output { port, max_len } => {
            put_u16(out, port)?;
            put_u16(out, max_len)
        }
        Action::SetVlanVid(value) | Action::SetTpSrc(value) | Action::SetTpDst(value) => {
            put_u16(out, value)?;
            out.extend_from_slice(&[0; 2])
        }
        Action::SetVlanPcp(value) | Action::SetNwTos(value) => {
            out.extend_from_slice(&[value, 0, 0, 0])
        }
        Action::StripVlan => out.extend_from_slice(&[0; 4]),
        Action::SetDlSrc(address) | Action::SetDlDst(address) => put_address(out, address),
        Action::SetNwSrc(address) | Action::SetNwDst(address) => put_u32(out, address),
        Action::Enqueue { port, queue } => {
            put_u16(out, port)?;
            out.extend_from_slice(&[0; 6])?;
            put_u32(out, queue)
        }
    }
}

fn put_action(out: &mut Vec<u8>, action: &Action) -> Result<(), AllocError>
    requires { HasAddress action.now }
    ensures ok { OnOk result (out.new.items ≡ out.old.items ++ spell action.now) }
    ensures err { OnErr result (take (length out.old.items) out.new.items ≡ out.old.items) }
{
    let kind = kind(action);
    put_u16(out, kind)?;
    put_u16(out, size(kind))?;
    put_body(out, action)
}

/// Bytes that the actions take in a message.
pub fn list_size(actions: &[Action]) -> u64
    ensures { result ≡ length (spelling actions.now) }
{
    let mut total = 0;
    for action in actions {
        total += u64::from(size(kind(action)));
    }
    total
}

/// Appends the bytes of the actions, padding zero (OpenFlow 1.0.0, section 5.2.4). Where memory runs out,
/// `out` is as before.
#[tactic(auto, using(crate::proofs::Cut::cut_back))]
pub fn encode_list(actions: &[Action], out: &mut Vec<u8>) -> Result<(), AllocError>
    requires { All HasAddress actions.now }
    ensures ok { OnOk result (out.new.items ≡ out.old.items ++ spelling actions.now) }
    ensures err { OnErr result (out.new.items ≡ out.old.items) }
{
    let start = out.len();
    for action in actions {
        if let Err(error) = put_action(out, action) {
            out.truncate(start);
            return Err(error);
        }
    }
    Ok(())
}
