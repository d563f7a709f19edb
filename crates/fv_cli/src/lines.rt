//! The lines that the program puts on its streams, as pieces. Making them and putting them takes no
//! memory.

ghost use Rattle.std.specs.Prelude.{◌≡◌, ◌≤◌, ◌++◌, ℕ, List, codes, decimal, OnOk, OnErr};
ghost use Rattle.fv_base.specs.Told.{appended, IsBeginning, Rose};
ghost use Rattle.flowspace.specs.Policies.{IsPolicy};
ghost use Rattle.policy_text.specs.Places.{field_key, key_path_text};
ghost use Rattle.fv_cli.specs.Lines.{piece_text, whole_text, what_text, improper_text, refusal_text, reading_text, policy_line, recording_line, nest_line, accepted_line};

use crate::base::{Failed, Sink, put_all};
use flowspace::{Field, Policy, PolicyFault, What};
use itoa::Buffer;
use nested_slices::NestFault;
use policy_text::{Part, Place, ReadFault};
use recording::RecordingFault;

/// A piece of a line; a number is put in decimal.
#[derive(Clone, Copy)]
pub(crate) enum Piece<'a> {
    Text(&'a str),
    Number(u64),
}

/// A whole line.
pub(crate) type Line<'a> = [Piece<'a>; 8];

const NOTHING: Piece<'static> = Piece::Text("");

fn put_piece<K: Sink>(sink: &mut K, piece: Piece<'_>) -> Result<(), Failed>
    ensures all { OnOk result (K.contents sink.new ≡ appended (K.contents sink.old) (piece_text piece.entry)) }
    ensures part { OnErr result ((put : List ℕ) × IsBeginning put (piece_text piece.entry) × (K.contents sink.new ≡ appended (K.contents sink.old) put)) }
    ensures cause { OnErr result (Rose (K.faults sink.old) (K.faults sink.new)) }
    ensures calm { OnOk result (K.faults sink.new ≡ K.faults sink.old) }
    ensures count { K.faults sink.old ≤ K.faults sink.new }
{
    match piece {
        Piece::Text(text) => put_all(sink, text.as_bytes()),
        Piece::Number(number) => put_all(sink, Buffer::new().format(number).as_bytes()),
    }
}

/// Puts all pieces. After `Failed` the sink took the first bytes of them, perhaps none.
pub(crate) fn put_pieces<K: Sink>(sink: &mut K, pieces: &[Piece<'_>]) -> Result<(), Failed>
    ensures all { OnOk result (K.contents sink.new ≡ appended (K.contents sink.old) (whole_text pieces.now)) }
    ensures part { OnErr result ((put : List ℕ) × IsBeginning put (whole_text pieces.now) × (K.contents sink.new ≡ appended (K.contents sink.old) put)) }
    ensures cause { OnErr result (Rose (K.faults sink.old) (K.faults sink.new)) }
    ensures calm { OnOk result (K.faults sink.new ≡ K.faults sink.old) }
    ensures count { K.faults sink.old ≤ K.faults sink.new }
{
    for piece in pieces {
        put_piece(sink, *piece)?;
    }
    Ok(())
}

fn what(what: What) -> &'static str
    ensures { result.now ≡ what_text what }
{
    match what {
        What::Slices => "slices",
        What::Rules => "rules",
        What::Writes => "write rules",
        What::Swaps => "ports",
    }
}

fn field(field: Field) -> &'static str
    ensures { result.now ≡ field_key field }
{
    match field {
        Field::Read => "read",
        Field::InPort => "in_port",
        Field::DlSrc => "dl_src",
        Field::DlDst => "dl_dst",
        Field::DlVlan => "dl_vlan",
        Field::DlVlanPcp => "dl_vlan_pcp",
        Field::DlType => "dl_type",
        Field::NwTos => "nw_tos",
        Field::NwProto => "nw_proto",
        Field::NwSrc => "nw_src",
        Field::NwDst => "nw_dst",
        Field::TpSrc => "tp_src",
        Field::TpDst => "tp_dst",
    }
}

fn place(at: &Place) -> [Piece<'_>; 4]
    ensures { whole_text result ≡ key_path_text at.now }
{
    let table = match at.part {
        Part::Top => return [Piece::Text(at.key.as_str()), NOTHING, NOTHING, NOTHING],
        Part::Slice => "slice.",
        Part::Rule => "rule.",
        Part::Port => "port.",
    };
    [
        Piece::Text(table),
        Piece::Number(at.index),
        Piece::Text("."),
        Piece::Text(at.key.as_str()),
    ]
}

fn at_place<'a>(fault: &'static str, at: &'a Place) -> [Piece<'a>; 5]
    ensures { whole_text result ≡ fault.now ++ key_path_text at.now }
{
    let [a, b, c, d] = place(at);
    [Piece::Text(fault), a, b, c, d]
}

fn only<'a>(text: &'static str) -> [Piece<'a>; 5]
    ensures { whole_text result ≡ text.now }
{
    [Piece::Text(text), NOTHING, NOTHING, NOTHING, NOTHING]
}

fn around<'a>(before: &'static str, number: u64, after: &'static str) -> [Piece<'a>; 5]
    ensures { whole_text result ≡ before.now ++ decimal number ++ after.now }
{
    [
        Piece::Text(before),
        Piece::Number(number),
        Piece::Text(after),
        NOTHING,
        NOTHING,
    ]
}

fn improper<'a>(rule: u64, which: Field) -> [Piece<'a>; 5]
    ensures { whole_text result ≡ improper_text rule which }
{
    [
        Piece::Text("rule "),
        Piece::Number(rule),
        Piece::Text(" improper "),
        Piece::Text(field(which)),
        NOTHING,
    ]
}

fn too_many<'a>(which: What, count: u64) -> [Piece<'a>; 5]
    ensures { whole_text result ≡ codes "too many " ++ what_text which ++ codes " " ++ decimal count }
{
    [
        Piece::Text("too many "),
        Piece::Text(what(which)),
        Piece::Text(" "),
        Piece::Number(count),
        NOTHING,
    ]
}

fn overlap<'a>(first: u64, second: u64) -> [Piece<'a>; 5]
    ensures { whole_text result ≡ codes "rules " ++ decimal first ++ codes " and " ++ decimal second ++ codes " overlap" }
{
    [
        Piece::Text("rules "),
        Piece::Number(first),
        Piece::Text(" and "),
        Piece::Number(second),
        Piece::Text(" overlap"),
    ]
}

fn refusal<'a>(fault: PolicyFault) -> [Piece<'a>; 5]
    ensures { whole_text result ≡ refusal_text fault }
{
    match fault {
        PolicyFault::TooMany(which, count) => too_many(which, count),
        PolicyFault::DuplicateSlice(slice) => around("slice ", slice, " is a duplicate"),
        PolicyFault::UnknownSlice(rule) => around("rule ", rule, " names no slice"),
        PolicyFault::Improper(rule, which) => improper(rule, which),
        PolicyFault::Overlap(first, second) => overlap(first, second),
        PolicyFault::UnknownPortSlice(port) => around("port ", port, " names no slice"),
        PolicyFault::PortTwice(port) => around("port ", port, " is named twice"),
        PolicyFault::Memory => only("no memory"),
    }
}

fn reading(fault: &ReadFault) -> [Piece<'_>; 5]
    ensures { whole_text result ≡ reading_text fault.now }
{
    match fault {
        ReadFault::NotToml => only("not TOML"),
        ReadFault::Missing(at) => at_place("missing ", at),
        ReadFault::BadValue(at) => at_place("bad value ", at),
        ReadFault::UnknownKey(at) => at_place("unknown key ", at),
        ReadFault::Improper(rule, which) => improper(*rule, *which),
        ReadFault::Refused(fault) => refusal(*fault),
        ReadFault::Memory => only("no memory"),
    }
}

fn of_policy(pieces: [Piece<'_>; 5]) -> Line<'_>
    ensures { whole_text result ≡ codes "policy: " ++ whole_text pieces.entry ++ codes "\n" }
{
    let [a, b, c, d, e] = pieces;
    [
        Piece::Text("policy: "),
        a,
        b,
        c,
        d,
        e,
        Piece::Text("\n"),
        NOTHING,
    ]
}

/// The line of a policy that is refused.
pub(crate) fn policy_line(fault: &ReadFault) -> Line<'_>
    ensures { whole_text result ≡ policy_line fault.now }
{
    of_policy(reading(fault))
}

fn numbered<'a>(before: &'static str, number: u64, after: &'static str) -> Line<'a>
    ensures { whole_text result ≡ before.now ++ decimal number ++ after.now }
{
    [
        Piece::Text(before),
        Piece::Number(number),
        Piece::Text(after),
        NOTHING,
        NOTHING,
        NOTHING,
        NOTHING,
        NOTHING,
    ]
}

/// A line of one piece.
pub(crate) fn plain_line<'a>(text: &'static str) -> Line<'a>
    ensures { whole_text result ≡ text.now }
{
    [
        Piece::Text(text),
        NOTHING,
        NOTHING,
        NOTHING,
        NOTHING,
        NOTHING,
        NOTHING,
        NOTHING,
    ]
}

/// The line of a recording that is refused.
pub(crate) fn recording_line<'a>(fault: RecordingFault) -> Line<'a>
    ensures { whole_text result ≡ recording_line fault }
{
    match fault {
        RecordingFault::Torn(at) => numbered("recording: torn record at ", at, "\n"),
        RecordingFault::Bad(at) => numbered("recording: bad record at ", at, "\n"),
        RecordingFault::NotOpen(at) => numbered("recording: not open at ", at, "\n"),
        RecordingFault::Memory => plain_line("no memory\n"),
    }
}

/// The line of a division that is refused.
pub(crate) fn nest_line<'a>(fault: NestFault) -> Line<'a>
    ensures { whole_text result ≡ nest_line fault }
{
    match fault {
        NestFault::Swaps => plain_line("nest: ports\n"),
        NestFault::Reader(rule) => numbered("nest: rule ", rule, " has no writer\n"),
        NestFault::Rate(sum) => numbered("nest: rate ", sum, "\n"),
        NestFault::Burst(sum) => numbered("nest: burst ", sum, "\n"),
        NestFault::Quota(sum) => numbered("nest: quota ", sum, "\n"),
        NestFault::Refused(fault) => of_policy(refusal(fault)),
        NestFault::Memory => plain_line("no memory\n"),
    }
}

/// What is said of an accepted policy.
pub(crate) fn accepted_line(policy: &Policy) -> Line<'static>
    ensures text { whole_text result ≡ accepted_line policy.now }
    ensures accepted { IsPolicy policy.now.slices policy.now.rules }
{
    [
        Piece::Text("ok "),
        Piece::Number(policy.slices().len() as u64),
        Piece::Text(" "),
        Piece::Number(policy.rules().len() as u64),
        Piece::Text("\n"),
        NOTHING,
        NOTHING,
        NOTHING,
    ]
}
