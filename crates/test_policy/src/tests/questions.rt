//! What a policy says on a switch.

use super::given::{NAMES, Row, expect_text, load, made, told};
use flowspace::{Rule, SwitchPolicy};
use of10_match::Header12;
use samples::{Packets, match_of, packet};
use std::alloc::{AllocError, Global};
use std::process::Abort;
use std::test::Fail;

/// What is asked.
#[derive(Clone, Copy)]
pub(super) enum Question {
    /// Which slices and rules there are.
    Parts,
    /// Which rule takes a packet for this TCP port, who writes it, and who reads it.
    Packet(u16),
    /// Who has these packets.
    Owner(Packets),
    /// Whether the slice has the port.
    Port(u8, u16),
}

fn answer(
    alloc: Global,
    rules: &[Rule],
    on: &SwitchPolicy,
    question: Question,
) -> Result<String, AllocError> {
    match question {
        Question::Parts => told(alloc, rules, on.slices(), on.rules()),
        Question::Packet(port) => {
            let header: Header12 = packet(3, 0xc000_0202, port);
            let (first, writer) = (on.first(&header), on.writer(&header));
            format!(in alloc; "{first:?} {writer:?} {}", on.readers(&header))
        }
        Question::Owner(packets) => format!(in alloc; "{:?}", on.owner_of(&match_of(&packets))),
        Question::Port(slot, port) => format!(in alloc; "{}", on.has_port(slot, port)),
    }
}

/// The policy of alice, bob and these rules answers on each switch as the table says: a switch, a question and the
/// answer.
pub(super) fn expect_answers(
    rt: &impl Abort,
    alloc: Global,
    rows: &[Row],
    table: &[(u64, Question, &str)],
) -> Result<(), Fail> {
    let rules = made(alloc, rows)?;
    let policy = load(alloc, NAMES, &rules)?;
    for (index, (datapath, question, wanted)) in table.iter().enumerate() {
        let on = policy.of_switch(alloc, *datapath)?;
        let came = answer(alloc, &rules, &on, *question)?;
        expect_text(rt, index, came.as_str(), wanted);
    }
    Ok(())
}
