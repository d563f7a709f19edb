//! The ports that a switch has reported, and what of them slices are shown.

use crate::tests::tables::{Part, play};
use expectations::told;
use flowspace::{Rule, SwitchPolicy};
use of10_port::protocol::NO_FLOOD;
use of10_port::{Features, Port, PortStatus};
use port_view::PortView;
use samples::{ANY, Packets, features, match_of, rule, switch_policy};
use std::alloc::{AllocError, Global};
use std::test::Fail;

/// Ports, each by its number, its configuration and a mark.
type PortRows = &'static [(u16, u32, u8)];

/// Rules, each by the slot that writes and the port of its packets, where not all are meant.
type RuleRows = &'static [(u8, Option<u16>)];

/// What a view is called for.
enum Call {
    /// The switch has these ports.
    Begin(PortRows),
    /// The switch reports a change of the port of a number, for a reason. Its mark is 9 then.
    Change(u16, u8),
    /// The switch reports so many new ports, from number 0 on.
    Add(u16),
    /// Are these the ports that are known?
    Are(PortRows),
    Count,
    /// How many bytes of features is the slice at a slot shown by these rules, and which begin them?
    Features(RuleRows, u8, u32),
    /// The ports to which the slice at a slot floods by these rules; or all to which it sends.
    Flood(RuleRows, u8, bool),
}

/// A port of this number and configuration, with a mark in its last byte.
fn port(number: u16, config: u32, mark: u8) -> Port {
    let mut raw = *Port::bare(number).raw();
    raw[27] = (config & 0xff) as u8;
    raw[47] = mark;
    Port::of(raw)
}

fn ports(alloc: Global, rows: PortRows) -> Result<Vec<Port>, AllocError> {
    let mut ports = Vec::new(alloc);
    for (number, config, mark) in rows {
        ports.push(port(*number, *config, *mark))?;
    }
    Ok(ports)
}

fn policy(alloc: Global, rows: RuleRows) -> Result<SwitchPolicy, AllocError> {
    let mut rules: Vec<Rule> = Vec::new(alloc);
    for (slot, in_port) in rows {
        let packets = Packets {
            in_port: *in_port,
            ..ANY
        };
        rules.push(rule(1, &match_of(&packets), *slot, 0))?;
    }
    match switch_policy(alloc, &rules) {
        Ok(policy) => Ok(policy),
        Err(_) => Err(AllocError),
    }
}

/// A switch and what is known of its ports.
#[derive(Drop)]
struct Switch {
    alloc: Global,
    switch: Features,
    view: PortView,
}

/// What is known of a switch with these ports.
fn switch_of(alloc: Global, rows: PortRows) -> Result<Switch, AllocError> {
    let ports = ports(alloc, rows)?;
    if ports.len() > 1364 {
        return Err(AllocError);
    }
    let switch = Features {
        buffers: 1000,
        tables: 3,
        capabilities: 5,
        ..features(alloc, &ports)?
    };
    let view = PortView::new(alloc, &switch)?;
    Ok(Switch {
        alloc,
        switch,
        view,
    })
}

impl Switch {
    /// What is foretold of the change, and what comes of it.
    fn change(&mut self, number: u16, reason: u8) -> Result<String, AllocError> {
        let port = port(number, 0, 9);
        let status = PortStatus { reason, port };
        let foretold = self.view.test_status(&status);
        told(self.alloc, &(foretold, self.view.take_status(&status)?))
    }

    fn shown(&self, rows: RuleRows, slot: u8, xid: u32) -> Result<String, AllocError> {
        let policy = policy(self.alloc, rows)?;
        let shown = self
            .view
            .features_for(self.alloc, &policy, slot, &self.switch, xid)?;
        let bytes = shown.as_slice();
        told(self.alloc, &(bytes.len(), bytes.get(..34)))
    }
}

impl Part<Call> for Switch {
    fn answer(&mut self, call: &Call) -> Result<String, AllocError> {
        let alloc = self.alloc;
        match *call {
            Call::Begin(rows) => {
                *self = switch_of(alloc, rows)?;
                told(alloc, &self.view.ports().len())
            }
            Call::Change(number, reason) => self.change(number, reason),
            Call::Add(count) => {
                for number in 0..count {
                    self.change(number, 0)?;
                }
                told(alloc, &self.view.ports().len())
            }
            Call::Are(rows) => told(
                alloc,
                &(self.view.ports() == ports(alloc, rows)?.as_slice()),
            ),
            Call::Count => told(alloc, &self.view.ports().len()),
            Call::Features(rows, slot, xid) => self.shown(rows, slot, xid),
            Call::Flood(rows, slot, all) => {
                let policy = policy(alloc, rows)?;
                told(alloc, &self.view.flood_ports(alloc, &policy, slot, all)?)
            }
        }
    }
}

/// Plays the calls on a view of a switch that begins without ports.
fn play_ports(alloc: Global, rows: &[(Call, &str)]) -> Result<(), Fail> {
    play(&mut switch_of(alloc, &[])?, rows)
}

/// Slices with one port and with two. The first bytes that the first one is shown go as far as its port's number.
const SHOWN: &[(Call, &str)] = &[
    (
        Call::Begin(&[(1, 0, 0), (2, 0, 0), (3, 0, 0), (0xfffe, 0, 0)]),
        "4",
    ),
    (
        Call::Features(SHARED, 0, 0xff00_0001),
        "(80, Some([1, 6, 0, 80, 255, 0, 0, 1, 0, 0, 0, 0, 0, 0, 0, 161, \
        0, 0, 1, 0, 1, 0, 0, 0, 0, 0, 0, 5, 0, 0, 15, 255, 0, 1]))",
    ),
    (
        Call::Features(SHARED, 1, 7),
        "(128, Some([1, 6, 0, 128, 0, 0, 0, 7, 0, 0, 0, 0, 0, 0, 0, 161, \
        0, 0, 1, 0, 1, 0, 0, 0, 0, 0, 0, 5, 0, 0, 15, 255, 0, 2]))",
    ),
];

const SHARED: RuleRows = &[(0, Some(1)), (1, Some(2)), (1, Some(0xfffe))];

#[test]
fn a_slice_is_shown_its_own_ports(rt: HostRuntime) -> Result<(), Fail> {
    play_ports(rt.alloc(), SHOWN)
}

const FLOODS: &[(Call, &str)] = &[
    (
        Call::Begin(&[
            (0xfffe, 0, 0),
            (3, !NO_FLOOD, 0),
            (2, NO_FLOOD, 0),
            (1, 0, 0),
        ]),
        "4",
    ),
    (Call::Flood(WHOLE, 0, false), "[1, 3]"),
    (Call::Flood(WHOLE, 0, true), "[1, 2, 3]"),
    (Call::Flood(PARTS, 0, false), "[]"),
    (Call::Flood(PARTS, 0, true), "[2]"),
];

const WHOLE: RuleRows = &[(0, None)];

const PARTS: RuleRows = &[(0, Some(2)), (0, Some(7)), (1, Some(1))];

#[test]
fn a_flood_leaves_ports_out(rt: HostRuntime) -> Result<(), Fail> {
    play_ports(rt.alloc(), FLOODS)
}

/// There is no port of a number that stands for something else.
const TWICE: &[(Call, &str)] = &[
    (
        Call::Begin(&[
            (2, 0, 1),
            (0xff01, 0, 1),
            (1, 0, 1),
            (2, 0, 2),
            (0xfffd, 0, 1),
        ]),
        "2",
    ),
    (Call::Are(&[(1, 0, 1), (2, 0, 2)]), "true"),
];

#[test]
fn of_two_ports_of_one_number_the_later_counts(rt: HostRuntime) -> Result<(), Fail> {
    play_ports(rt.alloc(), TWICE)
}

const CHANGES: &[(Call, &str)] = &[
    (Call::Begin(THREE), "3"),
    (Call::Change(2, 0), "(Kept, Kept)"),
    (
        Call::Are(&[(1, 0, 0), (2, 0, 9), (4, 0, 0), (0xfffe, 0, 0)]),
        "true",
    ),
    (Call::Begin(THREE), "3"),
    (Call::Change(2, 2), "(Kept, Kept)"),
    (
        Call::Are(&[(1, 0, 0), (2, 0, 9), (4, 0, 0), (0xfffe, 0, 0)]),
        "true",
    ),
    (Call::Begin(THREE), "3"),
    (Call::Change(4, 0), "(Kept, Kept)"),
    (Call::Are(&[(1, 0, 0), (4, 0, 9), (0xfffe, 0, 0)]), "true"),
    (Call::Begin(THREE), "3"),
    (Call::Change(4, 2), "(Kept, Kept)"),
    (Call::Are(&[(1, 0, 0), (4, 0, 9), (0xfffe, 0, 0)]), "true"),
    (Call::Begin(THREE), "3"),
    (Call::Change(4, 1), "(Kept, Kept)"),
    (Call::Are(&[(1, 0, 0), (0xfffe, 0, 0)]), "true"),
    (Call::Begin(THREE), "3"),
    (Call::Change(0xfffe, 1), "(Kept, Kept)"),
    (Call::Are(&[(1, 0, 0), (4, 0, 0)]), "true"),
    (Call::Begin(THREE), "3"),
    (Call::Change(0xff00, 0), "(Kept, Kept)"),
    (
        Call::Are(&[(1, 0, 0), (4, 0, 0), (0xff00, 0, 9), (0xfffe, 0, 0)]),
        "true",
    ),
    (Call::Begin(THREE), "3"),
    (Call::Change(0xff01, 0), "(Ignored, Ignored)"),
    (Call::Are(THREE), "true"),
    (Call::Begin(THREE), "3"),
    (Call::Change(0xfffd, 2), "(Ignored, Ignored)"),
    (Call::Are(THREE), "true"),
    (Call::Begin(THREE), "3"),
    (Call::Change(0xffff, 1), "(Ignored, Ignored)"),
    (Call::Are(THREE), "true"),
    (Call::Begin(THREE), "3"),
    (Call::Change(4, 3), "(Ignored, Ignored)"),
    (Call::Are(THREE), "true"),
    (Call::Begin(THREE), "3"),
    (Call::Change(2, 255), "(Ignored, Ignored)"),
    (Call::Are(THREE), "true"),
    (Call::Begin(THREE), "3"),
    (Call::Change(2, 1), "(Ignored, Ignored)"),
    (Call::Are(THREE), "true"),
];

const THREE: PortRows = &[(1, 0, 0), (4, 0, 0), (0xfffe, 0, 0)];

#[test]
fn a_status_is_kept_or_ignored(rt: HostRuntime) -> Result<(), Fail> {
    play_ports(rt.alloc(), CHANGES)
}

const MANY: &[(Call, &str)] = &[
    (Call::Begin(&[]), "0"),
    (Call::Add(1364), "1364"),
    (Call::Change(1364, 0), "(TooManyPorts, TooManyPorts)"),
    (Call::Change(1364, 2), "(TooManyPorts, TooManyPorts)"),
    (Call::Change(1364, 1), "(Ignored, Ignored)"),
    (Call::Change(0xff01, 0), "(Ignored, Ignored)"),
    (Call::Change(1363, 2), "(Kept, Kept)"),
    (Call::Change(0, 1), "(Kept, Kept)"),
    (Call::Change(1364, 2), "(Kept, Kept)"),
    (Call::Change(0, 0), "(TooManyPorts, TooManyPorts)"),
    (Call::Count, "1364"),
];

#[test]
fn no_more_than_1364_ports_are_known(rt: HostRuntime) -> Result<(), Fail> {
    play_ports(rt.alloc(), MANY)
}
