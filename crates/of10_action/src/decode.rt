//! Actions are read where they lie.

ghost use Rattle.std.specs.Prelude.{◌≡◌, ◌<◌, ◌≤◌, ◌↔◌, ℕ, true, List, length, is_ok, IfOk, Ok, Err};
ghost use Rattle.std.specs.List.{All};
ghost use Rattle.of10_action.specs.declared.action.Action.{Action};
ghost use Rattle.of10_action.specs.declared.fault.WireFault.{WireFault};
ghost use Rattle.of10_action.specs.declared.fault.DecodeFault.TheVariants.{Memory};
ghost use Rattle.of10_action.specs.Actions.{IsAction, HasAddress, AlikeButPadding, size_of, spelling};
ghost use Rattle.of10_action.specs.Reading.{Gives, Reads, head_at, action_of, action_at, actions_at, read_all, IsFirstFault};

use crate::action::{Action, Actions};
use crate::encode::size;
use crate::fault::{DecodeFault, WireFault};
use of10_model::wire::{u16_at, u32_at, u48_at};
use std::alloc::Global;

/// The kind and the length of the first action.
#[tactic(auto, unfolding(crate::specs::Reading::head_at))]
fn head(bytes: &[u8]) -> Result<(u16, u16), WireFault>
    ensures value { Reads (λ h. h) result (head_at bytes.now) }
    ensures known { IfOk result (λ h. h.0 ≤ 11) }
    ensures sized { IfOk result (λ h. h.1 ≡ size_of h.0) }
    ensures whole { IfOk result (λ h. h.1 ≤ length bytes.now) }
{
    if bytes.len() < 4 {
        return Err(WireFault::ActionLength(0));
    }
    let kind = u16_at(bytes, 0);
    let length = u16_at(bytes, 2);
    if bytes.len() < 8 || length < 8 || length % 8 != 0 || bytes.len() < usize::from(length) {
        return Err(WireFault::ActionLength(length));
    }
    if kind == 0xffff {
        return Err(WireFault::ActionVendor);
    }
    if kind > 11 {
        return Err(WireFault::ActionKind(kind));
    }
    if length != size(kind) {
        return Err(WireFault::ActionLength(length));
    }
    Ok((kind, length))
}

/// The action of the kind that begins the bytes.
#[tactic(auto, unfolding(crate::specs::Reading::action_of))]
fn action(kind: u16, bytes: &[u8]) -> Action
    requires known { kind ≤ 11 }
    requires whole { size_of kind ≤ length bytes.now }
    ensures value { result ≡ action_of kind bytes.now }
    ensures range { IsAction result }
    ensures address { HasAddress result }
{
    match kind {
        0 => Action::Output {
            port: u16_at(bytes, 4),
            max_len: u16_at(bytes, 6),
        },
        1 => Action::SetVlanVid(u16_at(bytes, 4)),
        2 => Action::SetVlanPcp(bytes[4]),
        3 => Action::StripVlan,
        4 => Action::SetDlSrc(u48_at(bytes, 4)),
        5 => Action::SetDlDst(u48_at(bytes, 4)),
        6 => Action::SetNwSrc(u32_at(bytes, 4)),
        7 => Action::SetNwDst(u32_at(bytes, 4)),
        8 => Action::SetNwTos(bytes[4]),
        9 => Action::SetTpSrc(u16_at(bytes, 4)),
        10 => Action::SetTpDst(u16_at(bytes, 4)),
        _ => Action::Enqueue {
            port: u16_at(bytes, 4),
            queue: u32_at(bytes, 12),
        },
    }
}

/// The first action and the bytes behind it.
#[tactic(auto, unfolding(crate::specs::Reading::action_at))]
pub(crate) fn first(bytes: &[u8]) -> Result<(Action, &[u8]), WireFault>
    ensures value { Reads (λ x. (x.0, x.1.now)) result (action_at bytes.now) }
    ensures range { IfOk result (λ x. IsAction x.0) }
    ensures address { IfOk result (λ x. HasAddress x.0) }
    ensures shorter { IfOk result (λ x. length x.1.now < length bytes.now) }
{
    let (kind, length) = head(bytes)?;
    Ok((action(kind, bytes), &bytes[usize::from(length)..]))
}

pub(crate) fn list(alloc: Global, bytes: &[u8]) -> Result<Vec<Action>, DecodeFault>
    ensures exact { Gives (λ v. v.items) result (read_all bytes.now) }
    ensures memory { result ≡ Err Memory → is_ok (action_at bytes.now) ≡ true }
    ensures range { IfOk result (λ v. All IsAction v.items) }
    ensures address { IfOk result (λ v. All HasAddress v.items) }
{
    let mut actions = Vec::new(alloc);
    let mut rest = bytes;
    while !rest.is_empty() {
        let (action, after) = match first(rest) {
            Ok(found) => found,
            Err(fault) => return Err(DecodeFault::Wire(fault)),
        };
        actions.push(action)?;
        rest = after;
    }
    Ok(actions)
}

/// The actions that the bytes spell, all of the bytes, padding disregarded; otherwise what is wrong with
/// the first action that is wrong (OpenFlow 1.0.0, section 5.2.4).
pub fn decode_list(alloc: Global, bytes: &[u8]) -> Result<Actions, DecodeFault>
    // What is read and which fault it is, unless memory runs out.
    ensures exact { Gives (λ a. a) result (read_all bytes.now) }
    // What is spelled so is read, unless memory runs out.
    ensures only { (actions : List Action) → All IsAction actions → bytes.now ≡ spelling actions → Gives (λ a. a) result (Ok actions) }
    // Memory is taken only once the first action is right.
    ensures memory { result ≡ Err Memory → is_ok (action_at bytes.now) ≡ true }
    ensures range { IfOk result (λ a. All IsAction a) }
{
    match list(alloc, bytes) {
        Ok(items) => Ok(Actions::from_vec(items)),
        Err(fault) => Err(fault),
    }
}

/// What is spelled is read again.
pub fn spelling_is_read()
    ensures { (actions : List Action) → All IsAction actions → read_all (spelling actions) ≡ Ok actions }
{}

/// The padding of an action says nothing: bytes alike with those that begin with an action but for its padding begin
/// with the same action, and the same bytes stand behind it (OpenFlow 1.0.0, section 5.2.4).
pub fn action_padding_says_nothing()
    ensures { (a b rest : List ℕ) (action : Action) → action_at a ≡ Ok (action, rest) → AlikeButPadding action a b → action_at b ≡ Ok (action, rest) }
{}

/// What is read has the length of its spelling.
pub fn reading_keeps_the_length()
    ensures { (bytes : List ℕ) (actions : List Action) → read_all bytes ≡ Ok actions → length (spelling actions) ≡ length bytes }
{}

/// A count of no less than the bytes ends no reading early.
pub fn count_ends_no_reading()
    ensures { (bytes : List ℕ) (n : ℕ) → length bytes ≤ n → actions_at n bytes ≡ read_all bytes }
{}

/// A list is refused exactly with the fault of the first action that is wrong.
pub fn fault_is_of_the_first_wrong()
    ensures { (bytes : List ℕ) (fault : WireFault) → (read_all bytes ≡ Err fault) ↔ IsFirstFault bytes fault }
{}
