//! What a controller says.

use crate::config::SwitchConfig;
use crate::queues::QueuesQuestion;
use of10_ctl::BodyView;
use of10_flow::{FlowModView, PacketOutView};
use of10_stats::StatsRequest;

/// A message that a controller sends (OpenFlow 1.0.0, section 5), but for its head: what has lists stays where it
/// lies.
#[derive(Drop)]
pub enum FromController<'a> {
    /// Section 5.5; any version but 0.
    Hello,
    /// Section 5.4.4; its body isn't read.
    Error,
    /// Section 5.5: the body, which goes back as it came.
    EchoRequest(BodyView<'a>),
    /// Section 5.5; its body isn't read.
    EchoReply,
    /// Section 5.5; its body isn't read.
    Vendor,
    /// Section 5.3.1.
    FeaturesRequest,
    /// Section 5.3.2.
    GetConfigRequest,
    /// Section 5.3.2.
    SetConfig(SwitchConfig),
    /// Section 5.3.6.
    PacketOut(PacketOutView<'a>),
    /// Section 5.3.3.
    FlowMod(FlowModView<'a>),
    /// Section 5.3.3; its body isn't read.
    PortMod,
    /// Section 5.3.5.
    StatsRequest(StatsRequest),
    /// Section 5.3.7.
    BarrierRequest,
    /// Section 5.3.4; its body is passed on as it came.
    QueueGetConfigRequest(QueuesQuestion),
}
