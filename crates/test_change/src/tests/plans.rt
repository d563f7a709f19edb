//! The plans of some changes of policy. Under OLD the slices are alice, at slot 0, and bob.

ghost use Rattle.std.specs.Prelude.{◌≡◌, length, IfOk};

use expectations::{expect_told, told};
use flow_book::{FlowBook, SliceState};
use flowspace::SwitchPolicy;
use of10_flow::FlowMod;
use of10_flow::protocol::ADD;
use of10_match::Match;
use policy_change::plan;
use policy_text::read;
use samples::{ANY, Packets, match_of, slice, switch_policy};
use std::alloc::{AllocError, Global};
use std::test::Fail;

/// The switch.
const DATAPATH: u64 = 0xa1;

/// TCP packets: by which port they came in, where that is given, and for which port they are.
type Tcp = (Option<u16>, u16);

const WEB: Tcp = (None, 80);

const SHELL: Tcp = (None, 22);

/// A rule of NEW: its fields and the name of its writer. The earlier one has the higher priority.
type NewRule = (&'static str, &'static str);

const FOR_WEB: &str = "dl_type = 2048\nnw_proto = 6\ntp_dst = 80\n";

const FOR_SHELL: &str = "dl_type = 2048\nnw_proto = 6\ntp_dst = 22\n";

const FOR_WEB_FROM_1: &str = "in_port = 1\ndl_type = 2048\nnw_proto = 6\ntp_dst = 80\n";

const FOR_WEB_FROM_2: &str = "in_port = 2\ndl_type = 2048\nnw_proto = 6\ntp_dst = 80\n";

const ELSEWHERE: &str = "switch = \"00000000000000b2\"\n";

/// A change of policy.
#[derive(Clone, Copy)]
struct Change {
    /// NEW's slices by their slots.
    slices: &'static [&'static str],
    rules: &'static [NewRule],
    /// What is booked under OLD: the slot of a slice, the packets and the priority.
    booked: &'static [(u8, Tcp, u16)],
    /// For each message the last byte of its transaction id, its priority, and its packets.
    planned: &'static str,
}

/// Alice has port 80, and bob port 22.
const SAME: Change = Change {
    slices: &["alice", "bob"],
    rules: &[(FOR_WEB, "alice"), (FOR_SHELL, "bob")],
    booked: &[(0, WEB, 10), (1, SHELL, 10)],
    planned: "[]",
};

const CHANGES: &[Change] = &[
    SAME,
    // a slice that NEW lacks
    Change {
        slices: &["alice"],
        rules: &[(FOR_WEB, "alice")],
        planned: "[(5, 10, None, Some(22))]",
        ..SAME
    },
    // slices that have changed their slots
    Change {
        slices: &["bob", "alice"],
        ..SAME
    },
    // a slice of another name at each slot
    Change {
        slices: &["carol", "dave"],
        rules: &[(FOR_WEB, "carol"), (FOR_SHELL, "dave")],
        planned: "[(5, 10, None, Some(80)), (6, 10, None, Some(22))]",
        ..SAME
    },
    // rules that hold on another switch
    Change {
        rules: &[(ELSEWHERE, "alice"), (ELSEWHERE, "alice")],
        planned: "[(5, 10, None, Some(80)), (6, 10, None, Some(22))]",
        ..SAME
    },
    // two slices that have exchanged their rules
    Change {
        rules: &[(FOR_WEB, "bob"), (FOR_SHELL, "alice")],
        booked: &[(0, SHELL, 10), (0, WEB, 10), (1, SHELL, 10), (1, WEB, 10)],
        planned: "[(5, 10, None, Some(80)), (6, 10, None, Some(22))]",
        ..SAME
    },
    // a match that lies in two rules of its slice together, and in no one of them
    Change {
        rules: &[(FOR_WEB_FROM_1, "alice"), (FOR_WEB_FROM_2, "alice")],
        booked: &[(0, (Some(1), 80), 10), (0, WEB, 10)],
        planned: "[(5, 10, None, Some(80))]",
        ..SAME
    },
    // a rule that takes packets of every port now
    Change {
        booked: &[(0, (Some(3), 80), 10)],
        ..SAME
    },
    // by slots, then by priorities as numbers, then by the bytes of the matches, where a given in_port stands before a free one
    Change {
        slices: &["carol"],
        rules: &[],
        booked: &[
            (1, SHELL, 1),
            (0, WEB, 10),
            (0, (Some(1), 80), 10),
            (0, WEB, 2),
            (0, SHELL, 10),
        ],
        planned: "[(5, 2, None, Some(80)), (6, 10, Some(1), Some(80)), (7, 10, None, Some(22)), (8, 10, None, Some(80)), (9, 1, None, Some(22))]",
        ..SAME
    },
    // nothing is booked
    Change {
        slices: &["carol"],
        rules: &[],
        booked: &[],
        ..SAME
    },
];

fn matched(tcp: Tcp) -> Match {
    match_of(&Packets {
        in_port: tcp.0,
        tcp: Some(tcp.1),
        ..ANY
    })
}

/// NEW's text.
fn new_text(alloc: Global, change: &Change) -> Result<String, AllocError> {
    let mut text = format!(in alloc; "version = 1\n")?;
    for name in change.slices {
        write!(
            text,
            "[[slice]]\nname = \"{name}\"\ncontroller = \"192.0.2.1:6633\"\n"
        )?;
    }
    let mut priority = 100u32;
    for (fields, writer) in change.rules {
        write!(
            text,
            "[[rule]]\npriority = {priority}\nwrite = \"{writer}\"\n{fields}"
        )?;
        priority = priority.saturating_sub(1);
    }
    Ok(text)
}

fn new_policy(alloc: Global, change: &Change) -> Result<SwitchPolicy, AllocError> {
    let text = new_text(alloc, change)?;
    let policy = read(alloc, text.as_bytes()).map_err(|_| AllocError)?;
    policy.of_switch(alloc, DATAPATH)
}

/// Books one pair more, as long as there are few.
fn book_pair(book: &mut FlowBook, pieces: &[Match; 1], priority: u16) -> Result<(), AllocError> {
    book.reserve(1)?;
    if book.count() < 1000 {
        book.added(ADD, pieces, priority, false, 1);
    }
    Ok(())
}

/// The state of a slice under OLD, for which these pairs are booked.
fn state_of(alloc: Global, slot: u8, change: &Change) -> Result<SliceState, AllocError> {
    let mut state = SliceState::new(alloc, slot, &slice(alloc, "alice")?)?;
    for (booked_for, tcp, priority) in change.booked {
        if *booked_for == slot {
            book_pair(&mut state.book, &[matched(*tcp)], *priority)?;
        }
    }
    Ok(state)
}

fn states(alloc: Global, change: &Change) -> Result<Vec<SliceState>, AllocError>
    ensures { IfOk result (λ v. length v.items ≡ 2) }
{
    let mut states = Vec::new(alloc);
    states.push(state_of(alloc, 0, change)?)?;
    states.push(state_of(alloc, 1, change)?)?;
    Ok(states)
}

/// What comes of the change; OLD's rules don't count.
fn planned(alloc: Global, change: &Change) -> Result<Vec<FlowMod>, AllocError> {
    let old = switch_policy(alloc, &[]).map_err(|_| AllocError)?;
    let new = new_policy(alloc, change)?;
    plan(alloc, &old, &new, &states(alloc, change)?)
}

/// A message as the tables have it. Transaction ids are counted from 0xff000000.
type Shown = (u32, u16, Option<u16>, Option<u16>);

fn shown(message: &FlowMod) -> Shown {
    let pattern = message.pattern.pattern();
    (
        message.xid.wrapping_sub(0xff00_0000),
        message.priority,
        pattern.in_port,
        pattern.tp_dst,
    )
}

fn all_shown(alloc: Global, messages: &[FlowMod]) -> Result<Vec<Shown>, AllocError> {
    let mut all = Vec::new(alloc);
    for message in messages {
        all.push(shown(message))?;
    }
    Ok(all)
}

#[test]
fn plan_has_the_pairs_that_lie_in_no_rule_of_their_slice(rt: HostRuntime) -> Result<(), Fail> {
    let alloc = rt.alloc();
    let mut row = 0u32;
    for change in CHANGES {
        let messages = planned(alloc, change)?;
        let came = told(alloc, &all_shown(alloc, &messages)?)?;
        expect_told(row, came.as_str(), change.planned)?;
        row = row.saturating_add(1);
    }
    Ok(())
}

/// Under NEW alice has another port than the one of which an entry is booked.
const MOVED: Change = Change {
    rules: &[("dl_type = 2048\nnw_proto = 6\ntp_dst = 8080\n", "alice")],
    booked: &[(0, WEB, 10)],
    ..SAME
};

#[test]
fn message_deletes_the_entry_of_the_pair(rt: HostRuntime) -> Result<(), Fail> {
    let alloc = rt.alloc();
    let messages = planned(alloc, &MOVED)?;
    expect_told(0, told(alloc, &messages.len())?.as_str(), "1")?;
    for m in &messages {
        let entry = (
            m.pattern == matched(WEB),
            m.priority,
            m.cookie,
            m.idle,
            m.hard,
        );
        expect_told(1, told(alloc, &entry)?.as_str(), "(true, 10, 0, 0, 0)")?;
        let sent = (
            m.xid,
            m.command,
            m.buffer,
            m.out_port,
            m.flags,
            m.actions.as_slice().len(),
        );
        expect_told(
            2,
            told(alloc, &sent)?.as_str(),
            "(4278190085, 4, 4294967295, 65535, 0, 0)",
        )?;
    }
    Ok(())
}
