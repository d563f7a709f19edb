//! Drawn lists for drawn policies: what is given is judged packet by packet.

use super::drawn::Draws;
use super::given::{answer_with, enqueue, output};
use super::plain::{Grant, Kind, is_own_port, may_have, names_its_ports, rewrites};
use action_check::CheckFault::Refused;
use action_check::{CheckFault, Origin};
use expectations::told;
use flowspace::{PolicyFault, Rule, SwitchPolicy};
use of10_action::{Action, Actions};
use of10_match::Header12;
use of10_port::protocol::{ALL, CONTROLLER, FLOOD, IN_PORT, NORMAL, TABLE};
use samples::{Packets, match_of, rule, switch_policy};
use std::alloc::{AllocError, Global};
use std::test::Fail;

/// How many policies are drawn for lists that end with one output.
const ROUNDS: u32 = 400;

/// How many packets of a piece are drawn.
const SAMPLES: u32 = 8;

/// A list of actions and what it is for.
#[derive(Clone, Copy)]
struct Case {
    kind: Kind,
    /// The packets of a piece, and one of them.
    packets: Packets,
    header: Header12,
    actions: [Action; 3],
    /// How many of the actions come before the last.
    before: u8,
}

impl Case {
    fn draw(draws: &mut Draws, kind: Kind, grants: &[Grant; 3], last: Action) -> Case {
        let packets = draws.packets_near(grants);
        Case {
            kind,
            packets,
            header: draws.header(&packets),
            actions: [draws.action(), draws.action(), last],
            before: draws.before(),
        }
    }

    fn origin(&self) -> Origin {
        match self.kind {
            Kind::Piece => Origin::Piece(match_of(&self.packets)),
            Kind::Packet => Origin::Packet(self.header),
            Kind::Probe => Origin::Probe {
                in_port: self.header.in_port,
            },
        }
    }

    fn list(&self) -> &[Action] {
        match self.before {
            0 => &self.actions[2..],
            1 => &self.actions[1..],
            _ => &self.actions,
        }
    }

    /// Whether the list is one that the slice may have for each packet, and names the ports.
    fn has_right_list(&self, grants: &[Grant], given: &Actions, draws: &mut Draws) -> bool {
        let given = given.as_slice();
        let mut are_right = names_its_ports(given)
            && may_have(grants, self.kind, &self.header, given);
        if self.kind == Kind::Piece {
            for _ in 0..SAMPLES {
                let header = draws.header(&self.packets);
                are_right = are_right && may_have(grants, self.kind, &header, given);
            }
        }
        are_right
    }

    /// Whether the answer is right for the packets that are drawn. None of them shows why a piece is refused.
    fn has_right_answer(
        &self,
        grants: &[Grant],
        answer: &Result<Actions, CheckFault>,
        draws: &mut Draws,
    ) -> bool {
        match answer {
            Ok(given) => self.has_right_list(grants, given, draws),
            Err(_) => {
                self.kind == Kind::Piece || !may_have(grants, self.kind, &self.header, self.list())
            }
        }
    }
}

/// What becomes of the lists that end with one output.
#[derive(Clone, Copy, Debug)]
struct Tally {
    /// Lists that are given, and those of them that make a packet another.
    given: u32,
    rewriting: u32,
    /// Lists that are refused, and those of them that are for what the slice may not do with the packet.
    refused: u32,
    not_permitted: u32,
    /// Answers that aren't right.
    wrong: u32,
}

fn count(number: u32, is_counted: bool) -> u32 {
    if is_counted {
        u32::saturating_add(number, 1)
    } else {
        number
    }
}

impl Tally {
    fn new() -> Tally {
        Tally {
            given: 0,
            rewriting: 0,
            refused: 0,
            not_permitted: 0,
            wrong: 0,
        }
    }

    fn add(&self, case: &Case, answer: &Result<Actions, CheckFault>, is_right: bool) -> Tally {
        let is_given = answer.is_ok();
        let is_rewriting = rewrites(&case.header, case.list());
        let is_not_permitted = matches!(answer, Err(Refused(6)));
        Tally {
            given: count(self.given, is_given),
            rewriting: count(self.rewriting, is_given && is_rewriting),
            refused: count(self.refused, !is_given),
            not_permitted: count(self.not_permitted, is_not_permitted),
            wrong: count(self.wrong, !is_right),
        }
    }
}

fn own_ports(alloc: Global, grants: &[Grant], ports: &[u16]) -> Result<Vec<u16>, AllocError> {
    let mut own = Vec::new(alloc);
    for port in ports {
        if is_own_port(grants, *port) {
            own.push(*port)?;
        }
    }
    Ok(own)
}

/// What is answered for the first slice on a switch of three ports, of which the second has no floods.
fn answered(
    alloc: Global,
    policy: &SwitchPolicy,
    grants: &[Grant],
    case: &Case,
) -> Result<Result<Actions, CheckFault>, AllocError> {
    let flood = own_ports(alloc, grants, &[1, 3])?;
    let all = own_ports(alloc, grants, &[1, 2, 3])?;
    let origin = case.origin();
    answer_with(alloc, policy, 0, &origin, case.list(), (&flood, &all))
}

fn rule_of(priority: u32, grant: &Grant) -> Rule {
    rule(priority, &match_of(&grant.packets), grant.writer, 0)
}

/// What becomes of drawn lists of one kind that end with an output.
fn tallied(alloc: Global, draws: &mut Draws, kind: Kind, last: Action) -> Result<Tally, Fail> {
    let mut tally = Tally::new();
    for _ in 0..ROUNDS {
        let grants = [draws.grant(), draws.grant(), draws.grant()];
        let rules = [
            rule_of(3, &grants[0]),
            rule_of(2, &grants[1]),
            rule_of(1, &grants[2]),
        ];
        let policy = match switch_policy(alloc, &rules) {
            Ok(policy) => policy,
            Err(PolicyFault::Overlap(_, _)) => continue,
            Err(fault) => return Err(fault.into()),
        };
        let case = Case::draw(draws, kind, &grants, last);
        let answer = answered(alloc, &policy, &grants, &case)?;
        let is_right = case.has_right_answer(&grants, &answer, draws);
        tally = tally.add(&case, &answer, is_right);
    }
    Ok(tally)
}

/// Outputs, and whether lists for pieces, for packets and for probes that end with one are given at all.
const OUTPUTS: &[(Action, [bool; 3])] = &[
    (output!(1), [true, true, true]),
    (output!(2), [true, true, true]),
    (output!(FLOOD), [true, true, true]),
    (output!(ALL), [true, true, true]),
    (output!(IN_PORT), [true, true, true]),
    (output!(CONTROLLER), [true, true, false]),
    (output!(TABLE), [false, true, false]),
    (output!(NORMAL), [false, false, false]),
    (enqueue!(2), [true, true, true]),
    (enqueue!(IN_PORT), [true, true, true]),
];

/// Whether lists that end with an output are given often and refused often, for what the slice may not do
/// too; or none is given.
fn tells_enough(kind: Kind, tally: &Tally, is_given: bool) -> bool {
    let rewriting = if kind == Kind::Probe { 0 } else { 20 };
    if is_given {
        tally.given >= 60
            && tally.rewriting >= rewriting
            && tally.refused >= 40
            && tally.not_permitted >= 25
    } else {
        tally.given == 0 && tally.refused >= 150
    }
}

/// Lists of a kind that end with one of the outputs are given as they may be.
fn expect_sound(alloc: Global, seed: u64, kind: Kind) -> Result<(), Fail> {
    let mut draws = Draws::new(seed);
    for (last, [for_piece, for_packet, for_probe]) in OUTPUTS {
        let is_given = match kind {
            Kind::Piece => *for_piece,
            Kind::Packet => *for_packet,
            Kind::Probe => *for_probe,
        };
        let tally = tallied(alloc, &mut draws, kind, *last)?;
        if tally.wrong > 0 || !tells_enough(kind, &tally, is_given) {
            return Err(Fail::new(told(alloc, &(*last, tally))?));
        }
    }
    Ok(())
}

#[test]
fn lists_for_pieces_are_sound(rt: HostRuntime) -> Result<(), Fail> {
    expect_sound(rt.alloc(), 11, Kind::Piece)
}

#[test]
fn lists_are_given_exactly_for_packets_that_may_be_sent(rt: HostRuntime) -> Result<(), Fail> {
    expect_sound(rt.alloc(), 12, Kind::Packet)
}

#[test]
fn lists_are_given_exactly_for_probes_that_may_be_sent(rt: HostRuntime) -> Result<(), Fail> {
    expect_sound(rt.alloc(), 13, Kind::Probe)
}
