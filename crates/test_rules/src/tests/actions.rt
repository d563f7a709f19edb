//! Which lists of actions a slice may send, and what becomes of them.

mod drawn;
mod given;
mod plain;
mod soundness;

use crate::tests::tables::expect_so;
use action_check::{CheckFault, Origin};
use flowspace::SwitchPolicy;
use given::{ALICE, BOB, FIRST_NET, SECOND_NET, answer_with, enqueue, output};
use of10_action::{Action, Actions};
use of10_port::protocol::{ALL, CONTROLLER, FLOOD, IN_PORT, LOCAL, NONE, NORMAL, TABLE};
use samples::{ANY, Packets, match_of, packet, rule, switch_policy};
use std::alloc::{AllocError, Global};
use std::test::Fail;

const THIRD_NET: u32 = 0x0a03_0000;

/// What is given for a list.
enum Wanted {
    /// The list as it was asked for.
    Same,
    /// This list.
    List(&'static [Action]),
    /// A list of so many actions.
    Many(usize),
    /// Nothing, since an action is refused with this code.
    Refused(u16),
    /// Nothing, since there are too many.
    TooMany,
}

const SAME: Wanted = Wanted::Same;

const BAD_OUT_PORT: Wanted = Wanted::Refused(4);

const BAD_ARGUMENT: Wanted = Wanted::Refused(5);

const NOT_PERMITTED: Wanted = Wanted::Refused(6);

const TOO_MANY: Wanted = Wanted::TooMany;

/// Rules, each by its priority, its packets and the slot that writes them.
type Rules = &'static [(u32, Packets, u8)];

/// A slice by its slot and the rules of its switch. Its ports are `all`, to some of which it floods.
struct Slice {
    slot: u8,
    rules: Rules,
    flood: &'static [u16],
    all: &'static [u16],
}

/// What a list of actions is for.
enum Use {
    Piece(Packets),
    /// A packet from a port to an address and a TCP port.
    Packet(u16, u32, u16),
    Probe(u16),
}

fn origin(of: &Use) -> Origin {
    match of {
        Use::Piece(packets) => Origin::Piece(match_of(packets)),
        Use::Packet(in_port, address, tcp) => Origin::Packet(packet(*in_port, *address, *tcp)),
        Use::Probe(in_port) => Origin::Probe { in_port: *in_port },
    }
}

/// What is checked: a list, or so many of one action.
enum Call {
    List(Use, &'static [Action]),
    Repeat(Use, Action, u16),
}

/// Whether the answer for the list is the one that is wanted.
fn is_given(answer: &Result<Actions, CheckFault>, asked: &[Action], wanted: &Wanted) -> bool {
    match (answer, wanted) {
        (Ok(given), Wanted::Same) => given.as_slice() == asked,
        (Ok(given), Wanted::List(list)) => given.as_slice() == *list,
        (Ok(given), Wanted::Many(count)) => given.as_slice().len() == *count,
        (Err(CheckFault::Refused(code)), Wanted::Refused(wanted)) => code == wanted,
        (Err(CheckFault::TooMany), Wanted::TooMany) => true,
        _ => false,
    }
}

/// Whether the slice is given for the list what is wanted.
fn gives(
    alloc: Global,
    policy: &SwitchPolicy,
    slice: &Slice,
    of: &Use,
    asked: &[Action],
    wanted: &Wanted,
) -> Result<bool, AllocError> {
    let ports = (slice.flood, slice.all);
    let answer = answer_with(alloc, policy, slice.slot, &origin(of), asked, ports)?;
    Ok(is_given(&answer, asked, wanted))
}

/// The actions of a call, and what they are for.
fn asked_by(alloc: Global, call: &'static Call) -> Result<(&'static Use, Vec<Action>), AllocError> {
    match call {
        Call::List(of, actions) => Ok((of, Vec::from_slice(alloc, actions)?)),
        Call::Repeat(of, action, count) => {
            let mut actions = Vec::new(alloc);
            for _ in 0..*count {
                actions.push(*action)?;
            }
            Ok((of, actions))
        }
    }
}

fn policy_of(alloc: Global, rows: Rules) -> Result<SwitchPolicy, Fail> {
    let mut rules = Vec::new(alloc);
    for (priority, packets, writer) in rows {
        rules.push(rule(*priority, &match_of(packets), *writer, 0))?;
    }
    Ok(switch_policy(alloc, &rules)?)
}

/// The slice's lists are answered as their rows say.
fn play_lists(
    alloc: Global,
    slice: &'static Slice,
    rows: &'static [(Call, Wanted)],
) -> Result<(), Fail> {
    let policy = policy_of(alloc, slice.rules)?;
    let mut place = 0u32;
    for (call, wanted) in rows {
        let (of, actions) = asked_by(alloc, call)?;
        let is_so = gives(alloc, &policy, slice, of, &actions, wanted)?;
        expect_so(place, is_so)?;
        place = place.saturating_add(1);
    }
    Ok(())
}

const TO_FIRST_NET: Packets = Packets {
    net: FIRST_NET,
    bits: 16,
    ..ANY
};

const TO_SECOND_NET: Packets = Packets {
    net: SECOND_NET,
    ..TO_FIRST_NET
};

const TO_THIRD_NET: Packets = Packets {
    net: THIRD_NET,
    ..TO_FIRST_NET
};

/// Those packets to the first network that come in at port 1.
const FROM_FIRST_PORT: Packets = Packets {
    in_port: Some(1),
    ..TO_FIRST_NET
};

pub(crate) const WEB: Packets = Packets {
    tcp: Some(80),
    ..ANY
};

pub(crate) const SHELL: Packets = Packets {
    tcp: Some(22),
    ..ANY
};

/// The packets to one network are alice's, those to another bob's. A switch has the ports 1, 2 and 3, and floods
/// don't leave port 2.
static NETS: Slice = Slice {
    slot: ALICE,
    rules: &[(100, TO_FIRST_NET, ALICE), (50, TO_SECOND_NET, BOB)],
    flood: &[1, 3],
    all: &[1, 2, 3],
};

const OF_SERVICES: Slice = Slice {
    slot: ALICE,
    rules: &[(100, WEB, ALICE), (50, SHELL, BOB)],
    flood: &[1, 3],
    all: &[1, 2, 3],
};

/// Web packets are alice's, those of shells bob's.
static SERVICES: Slice = OF_SERVICES;

static SERVICES_OF_BOB: Slice = Slice {
    slot: BOB,
    ..OF_SERVICES
};

/// From port 1 alice also has a network of her own, and from each port another one.
static ENTRIES: Slice = Slice {
    slot: ALICE,
    rules: &[
        (100, FROM_FIRST_PORT, ALICE),
        (90, TO_SECOND_NET, BOB),
        (80, TO_THIRD_NET, ALICE),
    ],
    flood: &[1, 3],
    all: &[1, 2, 3],
};

static ONE_PORT: Slice = Slice {
    slot: ALICE,
    rules: &[(100, FROM_FIRST_PORT, ALICE)],
    flood: &[],
    all: &[1],
};

const FLOODS: &[(Call, Wanted)] = &[
    (
        Call::List(
            Use::Piece(TO_FIRST_NET),
            &[
                enqueue!(2),
                Action::Output {
                    port: FLOOD,
                    max_len: 9,
                },
                Action::StripVlan,
            ],
        ),
        Wanted::List(&[
            enqueue!(2),
            Action::Output {
                port: 1,
                max_len: 9,
            },
            Action::Output {
                port: 3,
                max_len: 9,
            },
            Action::StripVlan,
        ]),
    ),
    (
        Call::List(
            Use::Piece(TO_FIRST_NET),
            &[
                enqueue!(2),
                Action::Output {
                    port: ALL,
                    max_len: 9,
                },
                Action::StripVlan,
            ],
        ),
        Wanted::List(&[
            enqueue!(2),
            Action::Output {
                port: 1,
                max_len: 9,
            },
            Action::Output {
                port: 2,
                max_len: 9,
            },
            Action::Output {
                port: 3,
                max_len: 9,
            },
            Action::StripVlan,
        ]),
    ),
];

#[test]
fn flood_and_all_become_ports(rt: HostRuntime) -> Result<(), Fail> {
    play_lists(rt.alloc(), &NETS, FLOODS)
}

const INTO_OTHER: Action = Action::SetNwDst(SECOND_NET + 1);

const WITHIN: Action = Action::SetNwDst(FIRST_NET + 0x0909);

const REWRITING: &[(Call, Wanted)] = &[
    (
        Call::List(Use::Piece(TO_FIRST_NET), &[INTO_OTHER, output!(2)]),
        NOT_PERMITTED,
    ),
    (
        Call::List(Use::Piece(TO_FIRST_NET), &[INTO_OTHER, output!(CONTROLLER)]),
        NOT_PERMITTED,
    ),
    (
        Call::List(Use::Piece(TO_FIRST_NET), &[WITHIN, output!(2)]),
        SAME,
    ),
    (
        Call::List(Use::Piece(TO_FIRST_NET), &[INTO_OTHER, output!(NORMAL)]),
        BAD_OUT_PORT,
    ),
];

#[test]
fn a_network_is_left_by_no_rewriting(rt: HostRuntime) -> Result<(), Fail> {
    play_lists(rt.alloc(), &NETS, REWRITING)
}

const HOST: u32 = 0x0a00_0002;

const SENT_BY_ALICE: &[(Call, Wanted)] = &[
    (
        Call::List(Use::Packet(NONE, HOST, 22), &[output!(2)]),
        NOT_PERMITTED,
    ),
    (
        Call::List(
            Use::Packet(NONE, HOST, 80),
            &[Action::SetTpDst(22), output!(2)],
        ),
        NOT_PERMITTED,
    ),
    (Call::List(Use::Packet(NONE, HOST, 80), &[output!(2)]), SAME),
];

const SENT_BY_BOB: &[(Call, Wanted)] = &[
    (
        Call::List(Use::Packet(NONE, HOST, 80), &[output!(2)]),
        NOT_PERMITTED,
    ),
    (
        Call::List(
            Use::Packet(NONE, HOST, 22),
            &[output!(2), Action::SetTpDst(80)],
        ),
        SAME,
    ),
];

#[test]
fn packets_are_sent_as_their_slice_may(rt: HostRuntime) -> Result<(), Fail> {
    play_lists(rt.alloc(), &SERVICES, SENT_BY_ALICE)?;
    play_lists(rt.alloc(), &SERVICES_OF_BOB, SENT_BY_BOB)
}

const PROBES: &[(Call, Wanted)] = &[
    (Call::List(Use::Probe(NONE), &[output!(2)]), SAME),
    (
        Call::List(Use::Probe(NONE), &[enqueue!(2), output!(FLOOD)]),
        Wanted::List(&[enqueue!(2), output!(1), output!(3)]),
    ),
    (
        Call::List(Use::Probe(NONE), &[output!(CONTROLLER)]),
        BAD_OUT_PORT,
    ),
    (
        Call::List(Use::Probe(NONE), &[output!(TABLE)]),
        BAD_OUT_PORT,
    ),
    (
        Call::List(Use::Probe(NONE), &[output!(NORMAL)]),
        BAD_OUT_PORT,
    ),
    (
        Call::List(Use::Probe(NONE), &[output!(IN_PORT)]),
        BAD_OUT_PORT,
    ),
    (Call::List(Use::Probe(3), &[output!(IN_PORT)]), SAME),
    (
        Call::List(Use::Probe(NONE), &[Action::StripVlan, output!(2)]),
        NOT_PERMITTED,
    ),
    (
        Call::List(Use::Probe(NONE), &[Action::SetVlanVid(7)]),
        NOT_PERMITTED,
    ),
    (
        Call::List(Use::Probe(NONE), &[Action::SetVlanVid(4096)]),
        BAD_ARGUMENT,
    ),
];

#[test]
fn probes_are_only_sent(rt: HostRuntime) -> Result<(), Fail> {
    play_lists(rt.alloc(), &SERVICES, PROBES)?;
    play_lists(rt.alloc(), &SERVICES_OF_BOB, PROBES)
}

const CODES: &[(Call, Wanted)] = &[
    (
        Call::List(Use::Piece(WEB), &[Action::SetVlanVid(4095), output!(2)]),
        SAME,
    ),
    (
        Call::List(Use::Piece(WEB), &[Action::SetVlanVid(4096), output!(2)]),
        BAD_ARGUMENT,
    ),
    (
        Call::List(Use::Piece(WEB), &[Action::SetVlanPcp(7), output!(2)]),
        SAME,
    ),
    (
        Call::List(Use::Piece(WEB), &[Action::SetVlanPcp(8), output!(NORMAL)]),
        BAD_ARGUMENT,
    ),
    (
        Call::List(Use::Piece(WEB), &[output!(NORMAL), Action::SetVlanPcp(8)]),
        BAD_OUT_PORT,
    ),
    (
        Call::List(Use::Piece(WEB), &[output!(0xff00), output!(LOCAL)]),
        SAME,
    ),
    (
        Call::List(Use::Piece(WEB), &[output!(0xff01)]),
        BAD_OUT_PORT,
    ),
    (Call::List(Use::Piece(WEB), &[output!(NONE)]), BAD_OUT_PORT),
    (Call::List(Use::Piece(WEB), &[output!(TABLE)]), BAD_OUT_PORT),
    (
        Call::List(Use::Piece(WEB), &[output!(IN_PORT), enqueue!(IN_PORT)]),
        SAME,
    ),
    (Call::List(Use::Piece(WEB), &[output!(CONTROLLER)]), SAME),
    (
        Call::List(Use::Piece(WEB), &[enqueue!(CONTROLLER)]),
        BAD_OUT_PORT,
    ),
    (
        Call::List(Use::Piece(WEB), &[enqueue!(FLOOD)]),
        BAD_OUT_PORT,
    ),
    (Call::List(Use::Piece(WEB), &[enqueue!(ALL)]), BAD_OUT_PORT),
    (
        Call::List(Use::Piece(WEB), &[Action::SetTpDst(22), output!(FLOOD)]),
        NOT_PERMITTED,
    ),
    (
        Call::List(Use::Piece(WEB), &[Action::SetTpDst(22), enqueue!(2)]),
        NOT_PERMITTED,
    ),
    (
        Call::List(Use::Piece(WEB), &[output!(2), Action::SetTpDst(22)]),
        SAME,
    ),
];

#[test]
fn arguments_and_ports_have_their_codes(rt: HostRuntime) -> Result<(), Fail> {
    play_lists(rt.alloc(), &SERVICES, CODES)
}

const SEEN: &[(Call, Wanted)] = &[
    (Call::List(Use::Piece(TO_FIRST_NET), &[output!(2)]), SAME),
    (
        Call::List(Use::Piece(TO_FIRST_NET), &[output!(CONTROLLER)]),
        NOT_PERMITTED,
    ),
    (
        Call::List(Use::Piece(FROM_FIRST_PORT), &[output!(CONTROLLER)]),
        SAME,
    ),
    (
        Call::List(Use::Packet(1, FIRST_NET, 80), &[output!(CONTROLLER)]),
        SAME,
    ),
    (
        Call::List(Use::Packet(1, FIRST_NET, 80), &[output!(TABLE)]),
        SAME,
    ),
    (
        Call::List(Use::Packet(2, FIRST_NET, 80), &[output!(3)]),
        SAME,
    ),
    (
        Call::List(Use::Packet(2, FIRST_NET, 80), &[output!(CONTROLLER)]),
        NOT_PERMITTED,
    ),
    (
        Call::List(Use::Packet(2, FIRST_NET, 80), &[output!(TABLE)]),
        NOT_PERMITTED,
    ),
    (
        Call::List(Use::Packet(2, FIRST_NET, 80), &[output!(IN_PORT)]),
        SAME,
    ),
    (
        Call::List(Use::Packet(NONE, FIRST_NET, 80), &[output!(2)]),
        SAME,
    ),
    (
        Call::List(Use::Packet(NONE, FIRST_NET, 80), &[output!(IN_PORT)]),
        BAD_OUT_PORT,
    ),
];

#[test]
fn only_the_controller_and_the_table_see_in_port(rt: HostRuntime) -> Result<(), Fail> {
    play_lists(rt.alloc(), &ENTRIES, SEEN)
}

const TO_ONE_PORT: &[(Call, Wanted)] = &[
    (Call::List(Use::Piece(FROM_FIRST_PORT), &[output!(1)]), SAME),
    (
        Call::List(Use::Piece(FROM_FIRST_PORT), &[output!(2)]),
        BAD_OUT_PORT,
    ),
    (
        Call::List(Use::Piece(FROM_FIRST_PORT), &[output!(LOCAL)]),
        BAD_OUT_PORT,
    ),
    (
        Call::List(Use::Piece(FROM_FIRST_PORT), &[output!(FLOOD)]),
        Wanted::List(&[]),
    ),
];

#[test]
fn a_slice_of_one_port_sends_to_it_alone(rt: HostRuntime) -> Result<(), Fail> {
    play_lists(rt.alloc(), &ONE_PORT, TO_ONE_PORT)
}

const LONG: &[(Call, Wanted)] = &[
    (Call::Repeat(Use::Piece(WEB), output!(2), 8182), SAME),
    (Call::Repeat(Use::Piece(WEB), output!(2), 8183), TOO_MANY),
    (Call::Repeat(Use::Piece(WEB), enqueue!(2), 4091), SAME),
    (Call::Repeat(Use::Piece(WEB), enqueue!(2), 4092), TOO_MANY),
    (
        Call::Repeat(Use::Piece(WEB), output!(ALL), 2727),
        Wanted::Many(8181),
    ),
    (Call::Repeat(Use::Piece(WEB), output!(ALL), 2728), TOO_MANY),
    (
        Call::Repeat(Use::Piece(WEB), output!(FLOOD), 4091),
        Wanted::Many(8182),
    ),
    (
        Call::Repeat(Use::Piece(WEB), output!(FLOOD), 4092),
        TOO_MANY,
    ),
    (
        Call::Repeat(Use::Piece(WEB), output!(NORMAL), 9000),
        BAD_OUT_PORT,
    ),
];

#[test]
fn lists_have_65463_bytes_at_most(rt: HostRuntime) -> Result<(), Fail> {
    play_lists(rt.alloc(), &SERVICES, LONG)
}
