//! Messages of a slice that ask nothing of the switch, and that this proxy answers itself.

ghost use Rattle.std.specs.Prelude.{◌≡◌, false, [], ◌∷◌, IfOk, List, Ok};
ghost use Rattle.of10_message.specs.declared.controller.FromController.TheVariants as said;
ghost use Rattle.slice_words.specs.Messages.{asks_switch};
ghost use Rattle.slice_words.specs.Items.{Settings, Sight};
ghost use Rattle.slice_words.specs.Pasts.{Past};
ghost use Rattle.slice_words.specs.Answers.{config_told, setting_answer, read_answer};
ghost use Rattle.of10_ctl.specs.Frames.{echo_reply_to};
ghost use Rattle.of10_port.specs.Features.{spell_features};
ghost use Rattle.of10_message.specs.Heads.{xid_of};
ghost use Rattle.port_view.specs.SlicePorts.{ports_of_slice, features_with};
ghost use Rattle.slice_side.specs.declared.change.Change.TheVariants.{Heard};
ghost use Rattle.slice_side.specs.Reactions.{Shown, Follows, IsSoundChange};

use crate::around::Around;
use crate::change::Change;
use crate::reaction::Reaction;
use crate::refusals::refused;
use of10_action::error::{BAD_REQUEST, BAD_VENDOR, REQUEST_NOT_PERMITTED};
use of10_ctl::{BodyView, Frame, echo_reply};
use of10_message::{FromController, SwitchConfig, config_reply};
use std::alloc::{AllocError, Global};

/// The reply to ECHO_REQUEST (OpenFlow 1.0.0, section 5.5).
fn echo(alloc: Global, body: &BodyView<'_>, frame: &Frame) -> Result<Frame, AllocError>
    ensures { IfOk result (λ reply. reply ≡ echo_reply_to (xid_of frame.now) body.now) }
{
    echo_reply(alloc, frame.head().xid, body)
}

/// The reply to GET_CONFIG_REQUEST (OpenFlow 1.0.0, section 5.3.2).
fn config(alloc: Global, wanted: u16, frame: &Frame) -> Result<Frame, AllocError>
    ensures { IfOk result (λ reply. reply ≡ config_told wanted frame.now) }
{
    let config = SwitchConfig {
        flags: 0,
        miss_send_len: wanted,
    };
    config_reply(alloc, frame.head().xid, &config)
}

/// SET_CONFIG is taken where it asks for fragments to be handled as usual (OpenFlow 1.0.0, section 5.3.2).
fn setting(
    alloc: Global,
    config: &SwitchConfig,
    frame: &Frame,
    moment: u64,
) -> Result<Reaction, AllocError>
    ensures sound { IfOk result (λ r. IsSoundChange r.change) }
    ensures nothing { IfOk result (λ r. r.to_switch.items ≡ []) }
    ensures follows { (s : Settings) (sight : Sight) → IfOk result (Follows s sight frame.now (Ok (said.SetConfig config.now)) (setting_answer config.now frame.now) moment) }
{
    if config.flags != 0 {
        return refused(
            alloc,
            BAD_REQUEST,
            REQUEST_NOT_PERMITTED,
            frame,
            Change::Heard { moment },
        );
    }
    let miss_send_len = config.miss_send_len;
    Ok(Reaction::silent(
        alloc,
        Change::Set {
            moment,
            miss_send_len,
        },
    ))
}

/// A message that is answered and changes nothing else.
fn replied(alloc: Global, reply: Frame, moment: u64) -> Result<Reaction, AllocError>
    ensures sound { IfOk result (λ r. IsSoundChange r.change) }
    ensures to_slice { IfOk result (λ r. r.to_slice.items ≡ reply ∷ []) }
    ensures to_switch { IfOk result (λ r. r.to_switch.items ≡ []) }
    ensures change { IfOk result (λ r. r.change ≡ Heard moment) }
    ensures close { IfOk result (λ r. r.close ≡ false) }
{
    Reaction::replying(alloc, reply, Change::Heard { moment })
}

/// The features that the slice is shown of its switch (OpenFlow 1.0.0, section 5.3.1).
fn features(alloc: Global, around: &Around<'_>, frame: &Frame) -> Result<Frame, AllocError>
    ensures { IfOk result (λ reply. reply ≡ spell_features (features_with around.now.features.now (ports_of_slice around.now.policy.now.rules around.now.slot around.now.ports.now)) (xid_of frame.now)) }
{
    let xid = frame.head().xid;
    around
        .ports
        .features_of(alloc, around.policy, around.slot, around.features, xid)
}

/// A message that asks nothing of the switch: this proxy answers echoes, features and configuration itself
/// (OpenFlow 1.0.0, sections 5.5, 5.3.1 and 5.3.2), and leaves out messages of vendors and changes of ports.
#[tactic(auto, unfolding(slice_words::specs::Answers::read_answer))]
pub(crate) fn local(
    alloc: Global,
    around: &Around<'_>,
    message: &FromController<'_>,
    frame: &Frame,
    moment: u64,
) -> Result<Reaction, AllocError>
    requires { asks_switch (Ok message.now) ≡ false }
    ensures sound { IfOk result (λ r. IsSoundChange r.change) }
    ensures nothing { IfOk result (λ r. r.to_switch.items ≡ []) }
    ensures follows { (s : Settings) (sight : Sight) (past : List Past) → Shown sight.view around.now.policy.now.rules around.now.ports.now around.now.features.now around.now.slot around.now.state.now.miss_send_len → IfOk result (Follows s sight frame.now (Ok message.now) (read_answer s sight.view past moment message.now frame.now) moment) }
{
    match message {
        FromController::EchoRequest(body) => replied(alloc, echo(alloc, body, frame)?, moment),
        FromController::Vendor => refused(
            alloc,
            BAD_REQUEST,
            BAD_VENDOR,
            frame,
            Change::Heard { moment },
        ),
        FromController::FeaturesRequest => {
            replied(alloc, features(alloc, around, frame)?, moment)
        }
        FromController::GetConfigRequest => {
            replied(
                alloc,
                config(alloc, around.state.miss_send_len, frame)?,
                moment,
            )
        }
        FromController::SetConfig(config) => setting(alloc, config, frame, moment),
        FromController::PortMod => {
            refused(
                alloc,
                BAD_REQUEST,
                REQUEST_NOT_PERMITTED,
                frame,
                Change::Heard { moment },
            )
        }
        _ => Ok(Reaction::silent(alloc, Change::Heard { moment })),
    }
}
