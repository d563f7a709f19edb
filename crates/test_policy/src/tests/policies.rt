//! Policies that are loaded or refused, and what they say of headers and ports.

use super::given::{NAMES, Row, SHELL, TELNET, TLS, WEB, expect_text, load, made, told};
use super::questions::{Question, expect_answers};
use flowspace::PolicyFault;
use samples::{ANY, Packets};
use std::alloc::{AllocError, Global};
use std::process::Abort;
use std::test::Fail;

/// The names of slices, rules, and the fault by which they are refused.
type FaultRow<'a> = (&'a [&'a str], &'a [Row], &'a str);

fn fault_text(alloc: Global, names: &[&str], rows: &[Row]) -> Result<String, AllocError> {
    match load(alloc, names, &made(alloc, rows)?) {
        Ok(_) => String::from_str(alloc, "accepted"),
        Err(PolicyFault::Memory) => Err(AllocError),
        Err(fault) => format!(in alloc; "{fault:?}"),
    }
}

fn expect_faults(rt: &impl Abort, alloc: Global, table: &[FaultRow]) -> Result<(), Fail> {
    for (index, (names, rows, wanted)) in table.iter().enumerate() {
        let came = fault_text(alloc, names, rows)?;
        expect_text(rt, index, came.as_str(), wanted);
    }
    Ok(())
}

/// The first rule of many cases.
const FIRST: Row = (None, 100, WEB, Some(0), 0);

/// Rules of alice and bob. The last but one would overlap, too.
const RULES_OF_SLICES: &[FaultRow] = &[
    (NAMES, &[FIRST, (None, 50, SHELL, Some(1), 0b1)], "accepted"),
    (
        NAMES,
        &[FIRST, (None, 50, SHELL, Some(2), 0)],
        "UnknownSlice(1)",
    ),
    (
        NAMES,
        &[FIRST, (None, 50, SHELL, None, 0b100)],
        "UnknownSlice(1)",
    ),
    (
        NAMES,
        &[FIRST, (None, 50, SHELL, Some(1), 0b11)],
        "Improper(1, Read)",
    ),
    (
        NAMES,
        &[FIRST, (None, 50, SHELL, Some(1), 0b110)],
        "UnknownSlice(1)",
    ),
    (
        NAMES,
        &[FIRST, (None, 50, WEB, Some(1), 0b10)],
        "Improper(1, Read)",
    ),
    (
        NAMES,
        &[(None, 5, SHELL, Some(0), 0b1), (None, 9, SHELL, Some(9), 0)],
        "Improper(0, Read)",
    ),
];

#[test]
fn rules_name_slices_and_no_writer_reads(rt: HostRuntime) -> Result<(), Fail> {
    expect_faults(&rt, rt.alloc(), RULES_OF_SLICES)
}

/// A rule of a slice that isn't there.
const OF_NOBODY: &[Row] = &[(None, 1, WEB, Some(4), 0)];

const NAMES_OF_SLICES: &[FaultRow] = &[
    (
        &["alice", "bob", "carol", "dave"],
        OF_NOBODY,
        "UnknownSlice(0)",
    ),
    (
        &["alice", "bob", "alice", "bob"],
        OF_NOBODY,
        "DuplicateSlice(2)",
    ),
    (
        &["alice", "bob", "bob", "bob"],
        OF_NOBODY,
        "DuplicateSlice(2)",
    ),
    (
        &["alice", "bob", "carol", "alice"],
        OF_NOBODY,
        "DuplicateSlice(3)",
    ),
];

#[test]
fn names_come_before_rules(rt: HostRuntime) -> Result<(), Fail> {
    expect_faults(&rt, rt.alloc(), NAMES_OF_SLICES)
}

#[test]
fn a_policy_is_what_it_is_given(rt: HostRuntime) -> Result<(), Fail> {
    let alloc = rt.alloc();
    let wanted = "alice 192.0.2.1:6633 1000 2000 0, bob 192.0.2.1:6633 1000 2000 0, \
rules Some(0) Some(1)";
    let rules = made(
        alloc,
        &[
            (None, 50, WEB, Some(0), 0),
            (Some(7), 100, SHELL, Some(1), 0),
        ],
    )?;
    let loaded = load(alloc, NAMES, &rules)?;
    let came = told(alloc, &rules, loaded.slices(), loaded.rules())?;
    expect_text(&rt, 0, came.as_str(), wanted);
    let copy = loaded.copy(alloc)?;
    let came = told(alloc, &rules, copy.slices(), copy.rules())?;
    expect_text(&rt, 1, came.as_str(), wanted);
    Ok(())
}

#[test]
fn a_policy_tells_slots_by_names_and_its_rules_in_order(rt: HostRuntime) -> Result<(), Fail> {
    let alloc = rt.alloc();
    let rules = made(
        alloc,
        &[
            (None, 50, WEB, Some(0), 0),
            (Some(7), 100, SHELL, Some(1), 0),
            (None, 50, TELNET, Some(0), 0),
        ],
    )?;
    let policy = load(alloc, NAMES, &rules)?;
    let ordered = policy.in_rule_order(alloc)?;
    let came = told(alloc, &rules, &[], &ordered)?;
    expect_text(&rt, 0, came.as_str(), "rules Some(1) Some(0) Some(2)");
    let on = policy.of_switch(alloc, 8)?;
    let mut came = String::new(alloc);
    for name in ["bob", "alice", "ali", "", "carol"] {
        write!(
            came,
            "{:?} {:?} ",
            policy.slot_named(name),
            on.slot_named(name)
        )?;
    }
    let wanted = "Some(1) Some(1) Some(0) Some(0) None None None None None None ";
    expect_text(&rt, 1, came.as_str(), wanted);
    Ok(())
}

#[test]
fn a_switch_has_its_rules_in_order(rt: HostRuntime) -> Result<(), Fail> {
    expect_answers(
        &rt,
        rt.alloc(),
        &[
            (None, 50, WEB, Some(0), 0),
            (Some(7), 100, SHELL, Some(1), 0),
            (None, 100, TLS, Some(0), 0),
            (Some(7), 70, TELNET, Some(1), 0),
        ],
        &[
            (
                7,
                Question::Parts,
                "alice 192.0.2.1:6633 1000 2000 0, bob 192.0.2.1:6633 1000 2000 0, \
rules Some(1) Some(2) Some(3) Some(0)",
            ),
            (
                8,
                Question::Parts,
                "alice 192.0.2.1:6633 1000 2000 0, bob 192.0.2.1:6633 1000 2000 0, \
rules Some(2) Some(0)",
            ),
        ],
    )
}

#[test]
fn the_first_rule_answers(rt: HostRuntime) -> Result<(), Fail> {
    expect_answers(
        &rt,
        rt.alloc(),
        &[
            (None, 100, WEB, Some(0), 0),
            (None, 10, ANY, None, 0b10),
            (Some(7), 50, SHELL, Some(1), 0),
        ],
        &[
            (7, Question::Packet(80), "Some(0) Some(0) 0"),
            (7, Question::Packet(22), "Some(1) Some(1) 0"),
            (7, Question::Packet(25), "Some(2) None 2"),
            (8, Question::Packet(80), "Some(0) Some(0) 0"),
            (8, Question::Packet(22), "Some(1) None 2"),
        ],
    )
}

/// The packets from port 1, from port 2, and from the switch's own.
const FROM_1: Packets = Packets {
    in_port: Some(1),
    ..ANY
};

const FROM_2: Packets = Packets {
    in_port: Some(2),
    ..ANY
};

const FROM_LOCAL: Packets = Packets {
    in_port: Some(0xfffe),
    ..ANY
};

/// The packets to an address that begins as 10.1.2.3 does in 8, 16 or 24 bits.
const TO_8: Packets = Packets {
    net: 0x0a01_0203,
    bits: 8,
    ..ANY
};

const TO_16: Packets = Packets { bits: 16, ..TO_8 };

const TO_24: Packets = Packets { bits: 24, ..TO_8 };

#[test]
fn a_match_inside_a_write_rule_has_its_writer(rt: HostRuntime) -> Result<(), Fail> {
    let web_from_1 = Packets {
        in_port: Some(1),
        net: 0x0a01_0203,
        bits: 32,
        tcp: Some(80),
    };
    expect_answers(
        &rt,
        rt.alloc(),
        &[
            (None, 9, TO_16, Some(1), 0),
            (None, 9, TO_24, Some(1), 0),
            (None, 5, ANY, None, 1),
            (Some(7), 7, FROM_2, Some(1), 0),
        ],
        &[
            (7, Question::Owner(TO_16), "Some(1)"),
            (7, Question::Owner(web_from_1), "Some(1)"),
            (7, Question::Owner(TO_8), "None"),
            (7, Question::Owner(WEB), "None"),
            (7, Question::Owner(ANY), "None"),
            (7, Question::Owner(FROM_2), "Some(1)"),
            (
                7,
                Question::Owner(Packets {
                    in_port: Some(2),
                    ..TO_8
                }),
                "Some(1)",
            ),
            (8, Question::Owner(FROM_2), "None"),
        ],
    )
}

#[test]
fn a_slice_has_the_ports_of_its_rules(rt: HostRuntime) -> Result<(), Fail> {
    let to_8_from_2 = Packets {
        in_port: Some(2),
        ..TO_8
    };
    expect_answers(
        &rt,
        rt.alloc(),
        &[
            (None, 9, FROM_1, Some(0), 0),
            (None, 9, FROM_LOCAL, Some(0), 0),
            (Some(7), 9, to_8_from_2, Some(1), 0),
            (None, 1, ANY, None, 3),
            (Some(8), 8, TO_8, Some(0), 0),
        ],
        &[
            (7, Question::Port(0, 1), "true"),
            (7, Question::Port(0, 2), "false"),
            (7, Question::Port(0, 0xfffe), "true"),
            (7, Question::Port(1, 2), "true"),
            (7, Question::Port(1, 1), "false"),
            (8, Question::Port(0, 0), "true"),
            (8, Question::Port(0, 0xff00), "true"),
            (8, Question::Port(0, 0xff01), "false"),
            (8, Question::Port(0, 0xfffd), "false"),
            (8, Question::Port(0, 0xffff), "false"),
            (8, Question::Port(1, 2), "false"),
            (8, Question::Port(2, 1), "false"),
        ],
    )
}
