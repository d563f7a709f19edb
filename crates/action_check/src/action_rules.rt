//! The rules by which each action of a list is tested.

ghost use Rattle.std.specs.Prelude.{◌≡◌, ◌&&◌, IsTrue, is_some};
ghost use Rattle.std.specs.List.{list_any};
ghost use Rattle.of10_model.specs.Pattern.{has};
ghost use Rattle.of10_model.specs.Inclusion.{includes_of, any_in_port};
ghost use Rattle.flowspace.specs.Rules.{is_written_by};
ghost use Rattle.action_check.specs.ActionRules.{argument_fits, port_sent_to, has_way_back, is_own_way, is_other_way, has_way, sees_in_port, counted_at, passes_at, may_go, is_covered, probe_code, code_of};
ghost use Rattle.action_check.specs.Verdicts.{AreVerdicts};

use crate::fault::{BAD_ARGUMENT, BAD_OUT_PORT, NOT_PERMITTED};
use crate::origin::Origin;
use crate::verdicts::{Verdicts, may_go_kept};
use flowspace::{Rule, SwitchPolicy, is_written_by};
use match_meet::{includes, includes_aside};
use of10_action::Action;
use of10_match::{Header12, Match};
use of10_model::protocol::{LAST_VLAN, LAST_VLAN_PRIORITY};
use of10_port::protocol::{ALL, CONTROLLER, FLOOD, IN_PORT, NONE, TABLE};

fn argument_fits(action: &Action) -> bool
    ensures { result ≡ argument_fits action.now }
{
    match *action {
        Action::SetVlanVid(vlan) => vlan <= LAST_VLAN,
        Action::SetVlanPcp(priority) => priority <= LAST_VLAN_PRIORITY,
        _ => true,
    }
}

fn port_of(action: &Action) -> Option<u16>
    ensures { result ≡ port_sent_to action.now }
{
    match *action {
        Action::Output { port, .. } | Action::Enqueue { port, .. } => Some(port),
        _ => None,
    }
}

fn has_way_back(policy: &SwitchPolicy, slot: u8, image: &Origin) -> bool
    ensures { result ≡ has_way_back policy.now.rules slot image.now }
{
    match image {
        Origin::Piece(_) => true,
        Origin::Packet(header) => policy.has_port(slot, header.in_port),
        Origin::Probe { in_port } => policy.has_port(slot, *in_port),
    }
}

fn is_own_way(policy: &SwitchPolicy, slot: u8, image: &Origin, port: u16) -> bool
    ensures { result ≡ is_own_way policy.now.rules slot image.now port }
{
    policy.has_port(slot, port) || (port == IN_PORT && has_way_back(policy, slot, image))
}

fn is_other_way(image: &Origin, port: u16) -> bool
    ensures { result ≡ is_other_way image.now port }
{
    match port {
        CONTROLLER | FLOOD | ALL => true,
        TABLE => !matches!(image, Origin::Piece(_)),
        _ => false,
    }
}

fn has_way(policy: &SwitchPolicy, slot: u8, image: &Origin, action: &Action) -> bool
    ensures { result ≡ has_way policy.now.rules slot image.now action.now }
{
    match *action {
        Action::Output { port, .. } => {
            is_own_way(policy, slot, image, port) || is_other_way(image, port)
        }
        Action::Enqueue { port, .. } => is_own_way(policy, slot, image, port),
        _ => true,
    }
}

pub(crate) fn sees_in_port(port: u16) -> bool
    ensures { result ≡ sees_in_port port }
{
    port == CONTROLLER || port == TABLE
}

fn covers(m: &Match, cover: &Match, port: u16) -> bool
    ensures { result ≡ includes_of (counted_at port m.now) cover.now }
{
    if sees_in_port(port) {
        includes(m, cover)
    } else {
        includes_aside(m, cover)
    }
}

fn with_in_port(header: &Header12, in_port: u16) -> Header12
    ensures { result ≡ record header.now { in_port = in_port } }
{
    Header12 { in_port, ..*header }
}

/// Whether the match would have the header if it took any in_port.
fn has_aside(m: &Match, header: &Header12) -> bool
    ensures { result ≡ has (any_in_port m.now) header.now }
{
    match m.pattern().in_port {
        None => m.matches(header),
        Some(in_port) => m.matches(&with_in_port(header, in_port)),
    }
}

fn has_header(m: &Match, header: &Header12, port: u16) -> bool
    ensures { result ≡ has (counted_at port m.now) header.now }
{
    if sees_in_port(port) {
        m.matches(header)
    } else {
        has_aside(m, header)
    }
}

fn covers_at(rules: &[Rule], place: u16, cover: &Match, port: u16) -> bool
    ensures { result ≡ passes_at (λ rule. includes_of (counted_at port rule.pattern) cover.now) rules.now place }
{
    match rules.get(usize::from(place)) {
        Some(rule) => covers(&rule.pattern, cover, port),
        None => false,
    }
}

fn has_header_at(rules: &[Rule], place: u16, header: &Header12, port: u16) -> bool
    ensures { result ≡ passes_at (λ rule. has (counted_at port rule.pattern) header.now) rules.now place }
{
    match rules.get(usize::from(place)) {
        Some(rule) => has_header(&rule.pattern, header, port),
        None => false,
    }
}

fn cover_place(policy: &SwitchPolicy, slot: u8, cover: &Match, port: u16) -> Option<u16>
    ensures { is_some result ≡ list_any (λ rule. is_written_by slot rule && includes_of (counted_at port rule.pattern) cover.now) policy.now.rules }
{
    policy.first_cover(slot, cover, sees_in_port(port))
}

fn header_place(policy: &SwitchPolicy, slot: u8, header: &Header12, port: u16) -> Option<u16>
    ensures { is_some result ≡ list_any (λ rule. is_written_by slot rule && has (counted_at port rule.pattern) header.now) policy.now.rules }
{
    policy.first_written(slot, header, sees_in_port(port))
}

/// Whether some rule by which the slice at the slot writes has the header, by whichever port the packet came
/// in (this proxy's own rule).
pub fn writes_by_some_port(policy: &SwitchPolicy, slot: u8, header: &Header12) -> bool
    ensures { result ≡ list_any (λ rule. is_written_by slot rule && has (any_in_port rule.pattern) header.now) policy.now.rules }
{
    header_place(policy, slot, header, NONE).is_some()
}

fn is_written_at(rules: &[Rule], slot: u8, place: u16) -> bool
    ensures { result ≡ passes_at (is_written_by slot) rules.now place }
{
    match rules.get(usize::from(place)) {
        Some(rule) => is_written_by(rule, usize::from(slot)),
        None => false,
    }
}

/// Whether the rule at a place lets the slice send the image to the port.
fn is_let_at(policy: &SwitchPolicy, slot: u8, place: u16, image: &Origin, port: u16) -> bool
    ensures { IsTrue result → IsTrue (may_go policy.now.rules slot image.now port) }
{
    let rules = policy.rules();
    if !is_written_at(rules, slot, place) {
        return false;
    }
    match image {
        Origin::Piece(cover) => covers_at(rules, place, cover, port),
        Origin::Packet(header) => has_header_at(rules, place, header, port),
        Origin::Probe { .. } => true,
    }
}

/// The same of the place that is kept, if there is one.
fn is_let_by(policy: &SwitchPolicy, slot: u8, last: Option<u16>, image: &Origin, port: u16) -> bool
    ensures { IsTrue result → IsTrue (may_go policy.now.rules slot image.now port) }
{
    match last {
        Some(place) => is_let_at(policy, slot, place, image, port),
        None => false,
    }
}

/// Whether the image may go to the port. The rule at the last place is asked first; where another lets the
/// image go, its place is the last from then on.
pub(crate) fn may_go(
    policy: &SwitchPolicy,
    slot: u8,
    image: &Origin,
    last: &mut Option<u16>,
    port: u16,
) -> bool
    ensures { result ≡ may_go policy.now.rules slot image.now port }
{
    if is_let_by(policy, slot, *last, image, port) {
        return true;
    }
    match image {
        Origin::Piece(cover) => {
            *last = cover_place(policy, slot, cover, port);
            last.is_some()
        }
        Origin::Packet(header) => {
            *last = header_place(policy, slot, header, port);
            last.is_some()
        }
        Origin::Probe { .. } => true,
    }
}

fn is_covered(
    policy: &SwitchPolicy,
    slot: u8,
    image: &Origin,
    verdicts: &mut Verdicts,
    action: &Action,
) -> bool
    requires { AreVerdicts policy.now.rules slot image.now verdicts.old }
    ensures value { result ≡ is_covered policy.now.rules slot image.now action.now }
    ensures kept { AreVerdicts policy.now.rules slot image.now verdicts.new }
{
    match port_of(action) {
        None => true,
        Some(port) => may_go_kept(policy, slot, image, verdicts, port),
    }
}

fn probe_code(image: &Origin, action: &Action) -> Option<u16>
    ensures { result ≡ probe_code image.now action.now }
{
    if !matches!(image, Origin::Probe { .. }) {
        return None;
    }
    match port_of(action) {
        None => Some(NOT_PERMITTED),
        Some(port) => sees_in_port(port).then_some(BAD_OUT_PORT),
    }
}

/// The code of the first rule that an action breaks, for the image of what the list is applied to. What was
/// found of the image is kept.
#[tactic(auto, unfolding(crate::specs::ActionRules::code_of))]
pub(crate) fn code_of(
    policy: &SwitchPolicy,
    slot: u8,
    image: &Origin,
    verdicts: &mut Verdicts,
    action: &Action,
) -> Option<u16>
    requires { AreVerdicts policy.now.rules slot image.now verdicts.old }
    ensures value { result ≡ code_of policy.now.rules slot image.now action.now }
    ensures kept { AreVerdicts policy.now.rules slot image.now verdicts.new }
{
    if !argument_fits(action) {
        return Some(BAD_ARGUMENT);
    }
    if !has_way(policy, slot, image, action) {
        return Some(BAD_OUT_PORT);
    }
    if !is_covered(policy, slot, image, verdicts, action) {
        return Some(NOT_PERMITTED);
    }
    probe_code(image, action)
}
