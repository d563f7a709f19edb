//! Whom a packet is for that the switch hands up.

ghost use Rattle.std.specs.Prelude.{ℕ, ◌≡◌, length, option_map};
ghost use Rattle.of10_flow.specs.PacketIns.{packet_of};
ghost use Rattle.flowspace.specs.Order.{first_rule};
ghost use Rattle.flowspace.specs.Policies.{PolicyView};
ghost use Rattle.desk_words.specs.Histories.{header_in, marked_slot, shares_of};
ghost use Rattle.switch_side.specs.Audiences.{named_by, audience_of, shares_in, writes};

use flowspace::{Rule, SwitchPolicy};
use frame_header::probe_slot;
use of10_flow::PacketInView;
use of10_match::Header12;
use rule_index::RuleIndex;

/// Whom a packet is for.
#[derive(Clone, Copy)]
pub(crate) enum Audience {
    /// The slice at this slot alone, whose mark it bears.
    Prober(u8),
    /// Those that a rule names. Bit k of the readers stands for the slot k.
    Named { writer: Option<u8>, readers: u32 },
}

/// The slot whose mark the packet bears, if it is one of so many slices.
fn marked_slot(count: usize, bytes: &[u8]) -> Option<u8>
    ensures { result ≡ marked_slot count bytes.now }
{
    match probe_slot(bytes) {
        Some(slot) if usize::from(slot) < count => Some(slot),
        _ => None,
    }
}

/// The first rule of the header.
fn first_rule<'a>(
    policy: &'a SwitchPolicy,
    index: &RuleIndex,
    header: &Header12,
) -> Option<&'a Rule>
    requires { index.now ≡ policy.now.rules }
    ensures { option_map (λ rule. rule.now) result ≡ first_rule policy.now.rules header.now }
{
    let place = index.first(header)?;
    policy.rules().get(usize::from(place))
}

/// Those that the first rule of the header names; nobody where there is none.
fn named(policy: &SwitchPolicy, index: &RuleIndex, header: &Header12) -> Audience
    requires { index.now ≡ policy.now.rules }
    ensures { result ≡ named_by (first_rule policy.now.rules header.now) }
{
    match first_rule(policy, index, header) {
        None => Audience::Named {
            writer: None,
            readers: 0,
        },
        Some(rule) => Audience::Named {
            writer: rule.writer,
            readers: rule.readers,
        },
    }
}

impl Audience {
    /// Whom the packet is for among so many slices: each has the shares of it that the policy's rules say.
    pub(crate) fn of(
        policy: &SwitchPolicy,
        index: &RuleIndex,
        count: usize,
        packet: &PacketInView<'_>,
        header: &Header12,
    ) -> Audience
        requires index { index.now ≡ policy.now.rules }
        requires header { header.now ≡ header_in (packet_of packet.now) }
        ensures value { result ≡ audience_of count policy.now.rules (packet_of packet.now) }
        ensures shares { (told : PolicyView) → length told.slices ≡ count → (slot : ℕ) → shares_in result (packet_of packet.now) slot ≡ shares_of told policy.now.rules slot (packet_of packet.now) }
    {
        match marked_slot(count, packet.payload) {
            Some(slot) => Audience::Prober(slot),
            None => named(policy, index, header),
        }
    }

    /// The slice at a slot may write such packets.
    pub(crate) fn has_writer(self, slot: u8) -> bool
        ensures { result ≡ writes self slot }
    {
        match self {
            Audience::Prober(_) => false,
            Audience::Named { writer, .. } => writer == Some(slot),
        }
    }
}
