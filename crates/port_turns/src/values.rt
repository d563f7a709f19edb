//! What was read of a slice's message, with the numbers exchanged that the slice's swaps name.

ghost use Rattle.std.specs.Prelude.{◌≡◌, true, map, Some};
ghost use Rattle.std.specs.List.{All};
ghost use Rattle.flowspace.specs.Swaps.{pairs_of};
ghost use Rattle.of10_action.specs.Actions.{HasAddress};
ghost use Rattle.of10_model.specs.Normal.{is_given};
ghost use Rattle.port_turns.specs.Turned.{exchanged, turned_action, turned_flow_mod, turned_packet_out, turned_pattern};
ghost use Rattle.port_turns.specs.Readings.{turned_queues, turned_request};

use flowspace::SwitchPolicy;
use of10_action::{Action, Actions};
use of10_flow::{FlowMod, PacketOut};
use of10_match::Match;
use of10_message::QueuesQuestion;
use of10_stats::StatsRequest;

/// The number that stands for a port of the slice at a slot.
fn exchanged(policy: &SwitchPolicy, slot: u8, port: u16) -> u16
    ensures { result ≡ exchanged (pairs_of policy.now.swaps slot) port }
{
    policy.swapped(slot, port)
}

/// The match with another in_port, where it has one.
fn with_in_port(m: &Match, port: u16) -> Match
    requires { is_given m.now.in_port ≡ true }
    ensures { result ≡ record m.now { in_port = Some port } }
{
    let mut pattern = *m.pattern();
    pattern.in_port = Some(port);
    Match::of(pattern)
}

fn turned_match(policy: &SwitchPolicy, slot: u8, m: &Match) -> Match
    ensures { result ≡ turned_pattern (exchanged (pairs_of policy.now.swaps slot)) m.now }
{
    match m.pattern().in_port {
        Some(port) => with_in_port(m, exchanged(policy, slot, port)),
        None => *m,
    }
}

fn turned_action(policy: &SwitchPolicy, slot: u8, action: Action) -> Action
    requires { HasAddress action }
    ensures value { result ≡ turned_action (exchanged (pairs_of policy.now.swaps slot)) action }
    ensures address { HasAddress result }
{
    match action {
        Action::Output { port, max_len } => Action::Output {
            port: exchanged(policy, slot, port),
            max_len,
        },
        Action::Enqueue { port, queue } => Action::Enqueue {
            port: exchanged(policy, slot, port),
            queue,
        },
        other => other,
    }
}

fn turn_one(policy: &SwitchPolicy, slot: u8, action: &mut Action)
    requires { HasAddress action.old }
    ensures value { action.new ≡ turned_action (exchanged (pairs_of policy.now.swaps slot)) action.old }
    ensures address { HasAddress action.new }
{
    *action = turned_action(policy, slot, *action);
}

fn turn_each(policy: &SwitchPolicy, slot: u8, actions: &mut [Action])
    requires { All HasAddress actions.old }
    ensures value { actions.new ≡ map (turned_action (exchanged (pairs_of policy.now.swaps slot))) actions.old }
    ensures addresses { All HasAddress actions.new }
{
    for action in actions.iter_mut() {
        turn_one(policy, slot, action);
    }
}

fn turned_actions(policy: &SwitchPolicy, slot: u8, actions: Actions) -> Actions
    ensures { result ≡ map (turned_action (exchanged (pairs_of policy.now.swaps slot))) actions }
{
    let mut items = actions.into_vec();
    turn_each(policy, slot, &mut items);
    Actions::from_vec(items)
}

/// A flow-mod of the slice at a slot with physical port numbers (OpenFlow 1.0.0, section 5.3.3; that numbers are
/// exchanged is this proxy's own rule): in its match, its out_port and its actions. Takes no memory.
pub fn turned_flow_mod(policy: &SwitchPolicy, slot: u8, m: FlowMod) -> FlowMod
    ensures { result ≡ turned_flow_mod (exchanged (pairs_of policy.now.swaps slot)) m }
{
    if !policy.has_swaps() {
        return m;
    }
    FlowMod {
        xid: m.xid,
        pattern: turned_match(policy, slot, &m.pattern),
        cookie: m.cookie,
        command: m.command,
        idle: m.idle,
        hard: m.hard,
        priority: m.priority,
        buffer: m.buffer,
        out_port: exchanged(policy, slot, m.out_port),
        flags: m.flags,
        actions: turned_actions(policy, slot, m.actions),
    }
}

/// So a packet-out (section 5.3.6): in its in_port and its actions.
pub fn turned_packet_out(policy: &SwitchPolicy, slot: u8, m: PacketOut) -> PacketOut
    ensures { result ≡ turned_packet_out (exchanged (pairs_of policy.now.swaps slot)) m }
{
    if !policy.has_swaps() {
        return m;
    }
    PacketOut {
        xid: m.xid,
        buffer: m.buffer,
        in_port: exchanged(policy, slot, m.in_port),
        actions: turned_actions(policy, slot, m.actions),
        payload: m.payload,
    }
}

/// So a request for statistics (section 5.3.5): in the match and the out_port of one for flow entries, and in the port
/// of one for a port or its queues.
pub fn turned_request(policy: &SwitchPolicy, slot: u8, request: &StatsRequest) -> StatsRequest
    ensures { result ≡ turned_request (exchanged (pairs_of policy.now.swaps slot)) request.now }
{
    if !policy.has_swaps() {
        return *request;
    }
    match *request {
        StatsRequest::Flow {
            pattern,
            table,
            out_port,
        } => StatsRequest::Flow {
            pattern: turned_match(policy, slot, &pattern),
            table,
            out_port: exchanged(policy, slot, out_port),
        },
        StatsRequest::Aggregate {
            pattern,
            table,
            out_port,
        } => StatsRequest::Aggregate {
            pattern: turned_match(policy, slot, &pattern),
            table,
            out_port: exchanged(policy, slot, out_port),
        },
        StatsRequest::Port(port) => StatsRequest::Port(exchanged(policy, slot, port)),
        StatsRequest::Queue { port, queue } => StatsRequest::Queue {
            port: exchanged(policy, slot, port),
            queue,
        },
        StatsRequest::Desc => StatsRequest::Desc,
        StatsRequest::Table => StatsRequest::Table,
    }
}

/// So a question for the queues of a port (section 5.3.4).
pub fn turned_queues(policy: &SwitchPolicy, slot: u8, question: &QueuesQuestion) -> QueuesQuestion
    ensures { result ≡ turned_queues (exchanged (pairs_of policy.now.swaps slot)) question.now }
{
    QueuesQuestion {
        port: exchanged(policy, slot, question.port),
        padding: question.padding,
    }
}
