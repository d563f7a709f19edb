//! Worked examples of what a desk must answer. Each function's contract is an example: the report of a
//! short recording, as it follows from the definitions; its body does nothing.
#![tactic(auto)]

ghost use Rattle.test_desk_words.specs.Examples.{PacketReaches, PacketPasses, BadLengthCloses, FeaturesAreTold, ConfigIsKept, FlagsAreRefused, OldVersionCloses, EchoIsAnswered, VendorIsRefused, PortModIsRefused};
ghost use Rattle.test_desk_words.specs.Ports.{StatusReachesBob, OwnPortsAreTold, OtherPortIsRefused};
ghost use Rattle.test_desk_words.specs.Connections.{NothingHappens, SwitchGoes, BadLengthEndsTheSwitch, EarlySliceIsRefused};
ghost use Rattle.test_desk_words.specs.FlowMods.{FlowModIsCut, FlowModIsRefused, ErrorIsToldOnce, FlowModHasTwoPieces, FloodIsSpread, ActionsAreHeldToTheSlice, QuotaHolds, OverlapIsRefused};
ghost use Rattle.test_desk_words.specs.PacketOuts.{ReusedPacketIsLost, PacketIsUsedOnce, PacketOutIsHeldToTheSlice, ProbeComesBack};
ghost use Rattle.test_desk_words.specs.Statistics.{BarrierComesBack, QueuesComeBack, OwnFlowsAreTold, FlowsAreSummed, TableIsTold};
ghost use Rattle.test_desk_words.specs.Readers.{WriterIsToldAlone, ReaderIsTold};
ghost use Rattle.test_desk_words.specs.Worlds.{FirstWorld, OtherWorld, HasTheSameSettings, SeesTheSame, IsSentTheSame};

/// A packet goes to the slice that may write its header, whole and without a buffer, and to no other.
pub fn packet_reaches_its_writer()
    ensures alice { PacketReaches }
    ensures nobody { PacketPasses }
{}

/// A message whose length field doesn't count its header, and a HELLO of version 0, are answered and close
/// the connection.
pub fn message_closes()
    ensures length { BadLengthCloses }
    ensures version { OldVersionCloses }
{}

/// The switch's features, the configuration and echoes are answered.
pub fn message_is_answered()
    ensures features { FeaturesAreTold }
    ensures config { ConfigIsKept }
    ensures echo { EchoIsAnswered }
{}

/// Fragments handled otherwise, messages of vendors and changes of ports are refused.
pub fn message_is_refused()
    ensures flags { FlagsAreRefused }
    ensures vendor { VendorIsRefused }
    ensures ports { PortModIsRefused }
{}

/// A slice that may write packets of port 1 alone isn't shown port 2, and may not output to it.
pub fn slice_is_told_its_ports()
    ensures status { StatusReachesBob }
    ensures features { OwnPortsAreTold }
    ensures output { OtherPortIsRefused }
{}

/// Without a record nothing happens; the switch's connection ends, also by a message whose length field
/// doesn't count its header; and a slice that connects before the switch has said what it is is refused.
pub fn connections_end()
    ensures nothing { NothingHappens }
    ensures down { SwitchGoes }
    ensures length { BadLengthEndsTheSwitch }
    ensures early { EarlySliceIsRefused }
{}

/// A packet reaches the writer of the first rule of its header alone, and where nobody writes it the rule's
/// reader.
pub fn packet_reaches_its_reader()
    ensures writer { WriterIsToldAlone }
    ensures reader { ReaderIsTold }
{}

/// A flow-mod is sent on for what its slice may write of its match, and is refused where that is nothing; the
/// first error that the switch answers to it is sent to the slice.
pub fn flow_mod_is_sent_on()
    ensures cut { FlowModIsCut }
    ensures refused { FlowModIsRefused }
    ensures error { ErrorIsToldOnce }
{}

/// A flow-mod is sent once for each piece of its match, and an output to FLOOD or ALL for each port; its
/// actions may send nothing out of the slice.
pub fn flow_mod_stays_in_the_slice()
    ensures pieces { FlowModHasTwoPieces }
    ensures flood { FloodIsSpread }
    ensures actions { ActionsAreHeldToTheSlice }
{}

/// A pair beyond the quota is refused until another was removed, and one that overlaps where that is asked
/// for.
pub fn booked_pairs_refuse()
    ensures quota { QuotaHolds }
    ensures overlap { OverlapIsRefused }
{}

/// A slice uses a packet that the switch holds for it by its own number, once, and no more once the switch
/// has used its number for another.
pub fn held_packet_is_used()
    ensures lost { ReusedPacketIsLost }
    ensures once { PacketIsUsedOnce }
{}

/// A packet that comes along is sent where its header and what its actions make of it are the slice's; a probe
/// is marked, and comes back to its slice alone.
pub fn packet_out_is_sent_on()
    ensures packet { PacketOutIsHeldToTheSlice }
    ensures probe { ProbeComesBack }
{}

/// A barrier and a question for queues are sent on under transaction ids of their own, and the replies come
/// back under those of the slice, each once.
pub fn reply_comes_back()
    ensures barrier { BarrierComesBack }
    ensures queues { QueuesComeBack }
{}

/// Of the statistics that the switch sends in parts a slice is sent its own, whole or summed. The slice is
/// sent those of its one table without asking the switch.
pub fn statistics_are_told()
    ensures flows { OwnFlowsAreTold }
    ensures sum { FlowsAreSummed }
    ensures table { TableIsTold }
{}

/// Under a policy that differs in what another slice may write, in who reads and in priorities, a slice has the
/// same settings and sees the same. So it is sent the same, and what it has the switch sent is the same too; the
/// other slice is sent more.
pub fn worlds_alike_for_a_slice()
    ensures first { FirstWorld }
    ensures other { OtherWorld }
    ensures settings { HasTheSameSettings }
    ensures view { SeesTheSame }
    ensures sent { IsSentTheSame }
{}
