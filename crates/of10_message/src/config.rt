//! How a switch is set (OpenFlow 1.0.0, section 5.3.2).

ghost use Rattle.std.specs.Prelude.{◌≡◌, IfOk};
ghost use Rattle.of10_action.specs.Reading.{Reads};
ghost use Rattle.of10_ctl.specs.Frames.{message_of};
ghost use Rattle.of10_message.specs.Configs.{IsConfig, config_bytes, read_config, spell_set_config, spell_config_reply};

use of10_action::WireFault;
use of10_ctl::kind::{GET_CONFIG_REPLY, SET_CONFIG};
use of10_ctl::{Frame, begin};
use of10_model::wire::{put_u16, u16_at};
use std::alloc::{AllocError, Global};

/// How a switch is set (OpenFlow 1.0.0, section 5.3.2).
#[derive(Clone, Copy, PartialEq, Eq)]
pub struct SwitchConfig {
    /// How fragments are handled: 0 as usual.
    pub flags: u16,
    /// How many bytes of a packet that no entry matched are handed up.
    pub miss_send_len: u16,
}

impl SwitchConfig {
    /// What SET_CONFIG or GET_CONFIG_REPLY says; `Length` where the message doesn't have 12 bytes.
    pub fn decode(frame: &Frame) -> Result<SwitchConfig, WireFault>
        ensures exact { Reads (λ config. config) result (read_config frame.now) }
        ensures range { IfOk result (λ config. IsConfig config) }
    {
        let bytes = frame.as_slice();
        if bytes.len() != 12 {
            return Err(WireFault::Length(bytes.len() as u16));
        }
        Ok(SwitchConfig {
            flags: u16_at(bytes, 8),
            miss_send_len: u16_at(bytes, 10),
        })
    }
}

/// A message of a type that says how a switch is set.
fn setting(alloc: Global, kind: u8, xid: u32, config: &SwitchConfig) -> Result<Frame, AllocError>
    ensures { IfOk result (λ f. f ≡ message_of kind xid (config_bytes config.now)) }
{
    let mut out = begin(alloc, kind, xid, 4)?;
    put_u16(&mut out, config.flags)?;
    put_u16(&mut out, config.miss_send_len)?;
    Ok(Frame::of(out))
}

/// SET_CONFIG (OpenFlow 1.0.0, section 5.3.2): a switch is to be set so.
pub fn set_config(alloc: Global, xid: u32, config: &SwitchConfig) -> Result<Frame, AllocError>
    ensures { IfOk result (λ f. f ≡ spell_set_config xid config.now) }
{
    setting(alloc, SET_CONFIG, xid, config)
}

/// GET_CONFIG_REPLY (OpenFlow 1.0.0, section 5.3.2): a switch is set so.
pub fn config_reply(alloc: Global, xid: u32, config: &SwitchConfig) -> Result<Frame, AllocError>
    ensures { IfOk result (λ f. f ≡ spell_config_reply xid config.now) }
{
    setting(alloc, GET_CONFIG_REPLY, xid, config)
}
