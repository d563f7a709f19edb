//! What a switch says.

use crate::config::SwitchConfig;
use crate::queues::QueuesView;
use crate::switch_error::ErrorView;
use of10_ctl::BodyView;
use of10_flow::{FlowRemovedView, PacketInView};
use of10_port::{FeaturesView, PortStatusView};
use of10_stats::StatsPart;

/// A message that a switch sends (OpenFlow 1.0.0, section 5), but for its head, where it lies. It shows a
/// `SwitchMessage` of the definitions (`said_by`).
#[derive(Drop)]
pub enum SwitchMessageView<'a> {
    /// Section 5.5; any version but 0.
    Hello,
    /// Section 5.4.4.
    Error(ErrorView<'a>),
    /// Section 5.5: the body, which goes back as it came.
    EchoRequest(BodyView<'a>),
    /// Section 5.5; its body isn't read.
    EchoReply,
    /// Section 5.5; its body isn't read.
    Vendor,
    /// Section 5.3.1.
    FeaturesReply(FeaturesView<'a>),
    /// Section 5.3.2.
    GetConfigReply(SwitchConfig),
    /// Section 5.4.1.
    PacketIn(PacketInView<'a>),
    /// Section 5.4.2.
    FlowRemoved(FlowRemovedView<'a>),
    /// Section 5.4.3.
    PortStatus(PortStatusView<'a>),
    /// Section 5.3.5: one part, and its entries.
    StatsReply(StatsPart, &'a [u8]),
    /// Section 5.3.7.
    BarrierReply,
    /// Section 5.3.4.
    QueueGetConfigReply(QueuesView<'a>),
}
