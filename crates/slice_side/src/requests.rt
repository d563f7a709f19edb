//! What a slice asks the switch to reply to: statistics, barriers and queues.

ghost use Rattle.std.specs.Prelude.{ℕ, ◌≡◌, IfOk, IsSome, Ok};
ghost use Rattle.of10_message.specs.declared.controller.FromController.TheVariants as said;
ghost use Rattle.slice_words.specs.Messages.{kind_asked};
ghost use Rattle.slice_words.specs.Items.{Settings, Sight};
ghost use Rattle.slice_words.specs.Standing.{SliceStands, past_of};
ghost use Rattle.slice_words.specs.FlowMods.{ground_of};
ghost use Rattle.slice_words.specs.Questions.{may_ask, barrier_asked};
ghost use Rattle.slice_words.specs.Answers.{statistics_answer, queues_answer};
ghost use Rattle.stats_filter.specs.Asking.{asked_as};
ghost use Rattle.slice_side.specs.Reactions.{Sees, Follows, IsSoundChange, ground_at};
ghost use Rattle.slice_side.specs.Checking.{AreSentOn};

use crate::around::Around;
use crate::change::Change;
use crate::reaction::Reaction;
use crate::refusals::refused;
use crate::remembering::asked;
use of10_action::error::{BAD_REQUEST, REQUEST_NOT_PERMITTED};
use of10_ctl::kind::BARRIER_REQUEST;
use of10_ctl::{Frame, message};
use of10_message::{QueuesQuestion, queues_request};
use of10_port::protocol::{ALL, NONE};
use of10_stats::StatsRequest;
use stats_filter::{ask, table_reply};
use std::alloc::{AllocError, Global};
use xid_map::AskKind;

/// Whether the slice may ask for the statistics (OpenFlow 1.0.0, section 5.3.5): those of its own ports, and
/// those of all.
fn may_ask(around: &Around<'_>, request: &StatsRequest) -> bool
    ensures { (quota xid : ℕ) → result ≡ may_ask (ground_at around.now.policy.now.rules around.now.slot around.now.ports.now quota xid around.now.state.now) request.now }
{
    match *request {
        StatsRequest::Port(port) => port == NONE || around.policy.has_port(around.slot, port),
        StatsRequest::Queue { port, .. } => port == ALL
            || around.policy.has_port(around.slot, port),
        _ => true,
    }
}

/// What a request asks for that the switch is asked.
fn kind_of(request: &StatsRequest) -> AskKind
    requires { IsSome (asked_as request.now) }
    ensures { result ≡ kind_asked (Ok (said.StatsRequest request.now)) }
{
    match request {
        StatsRequest::Desc => AskKind::Desc,
        StatsRequest::Flow { .. } => AskKind::Flow,
        StatsRequest::Aggregate { .. } => AskKind::Aggregate,
        StatsRequest::Port(_) => AskKind::Port,
        StatsRequest::Queue { .. } => AskKind::Queue,
        StatsRequest::Table => unreachable!(),
    }
}

/// A request for statistics that keeps the rate (OpenFlow 1.0.0, section 5.3.5). The slice's one table is
/// reported at once.
pub(crate) fn statistics(
    alloc: Global,
    around: &Around<'_>,
    request: &StatsRequest,
    frame: &Frame,
    moment: u64,
) -> Result<Reaction, AllocError>
    ensures sound { IfOk result (λ r. IsSoundChange r.change) }
    ensures sent { IfOk result (λ r. AreSentOn around.now.policy.now.rules around.now.slot around.now.ports.now around.now.state.now (Ok (said.StatsRequest request.now)) r.to_switch.items) }
    ensures follows { (s : Settings) (sight : Sight) → SliceStands s sight around.now.state.now → Sees s sight.view around.now.policy.now around.now.ports.now around.now.features.now around.now.slot → IfOk result (Follows s sight frame.now (Ok (said.StatsRequest request.now)) (statistics_answer (ground_of s sight.view (past_of s sight.view)) request.now frame.now) moment) }
{
    if !may_ask(around, request) {
        return refused(
            alloc,
            BAD_REQUEST,
            REQUEST_NOT_PERMITTED,
            frame,
            Change::Rated { moment },
        );
    }
    let (_, xid) = around.state.xids.next();
    match ask(alloc, request, xid)? {
        None => {
            let booked = around.state.book.count();
            let reply = table_reply(alloc, booked, around.quota(), frame.head().xid)?;
            Reaction::replying(alloc, reply, Change::Rated { moment })
        }
        Some(question) => {
            let asked = asked(frame, kind_of(request), 0);
            Reaction::sending(alloc, question, Change::Inquired { moment, asked })
        }
    }
}

/// A barrier that keeps the rate (OpenFlow 1.0.0, section 5.3.7).
pub(crate) fn barrier(
    alloc: Global,
    around: &Around<'_>,
    frame: &Frame,
    moment: u64,
) -> Result<Reaction, AllocError>
    ensures sound { IfOk result (λ r. IsSoundChange r.change) }
    ensures sent { IfOk result (λ r. AreSentOn around.now.policy.now.rules around.now.slot around.now.ports.now around.now.state.now (Ok said.BarrierRequest) r.to_switch.items) }
    ensures follows { (s : Settings) (sight : Sight) → SliceStands s sight around.now.state.now → Sees s sight.view around.now.policy.now around.now.ports.now around.now.features.now around.now.slot → IfOk result (Follows s sight frame.now (Ok said.BarrierRequest) (barrier_asked (ground_of s sight.view (past_of s sight.view))) moment) }
{
    let asked = asked(frame, AskKind::Barrier, 0);
    let (_, xid) = around.state.xids.next();
    let question = message(alloc, BARRIER_REQUEST, xid, &[])?;
    Reaction::sending(alloc, question, Change::Inquired { moment, asked })
}

/// A question for the queues of a port that keeps the rate (OpenFlow 1.0.0, section 5.3.4): a slice may ask for
/// those of its own ports.
pub(crate) fn queues(
    alloc: Global,
    around: &Around<'_>,
    question: &QueuesQuestion,
    frame: &Frame,
    moment: u64,
) -> Result<Reaction, AllocError>
    ensures sound { IfOk result (λ r. IsSoundChange r.change) }
    ensures sent { IfOk result (λ r. AreSentOn around.now.policy.now.rules around.now.slot around.now.ports.now around.now.state.now (Ok (said.QueueGetConfigRequest question.now)) r.to_switch.items) }
    ensures follows { (s : Settings) (sight : Sight) → SliceStands s sight around.now.state.now → Sees s sight.view around.now.policy.now around.now.ports.now around.now.features.now around.now.slot → IfOk result (Follows s sight frame.now (Ok (said.QueueGetConfigRequest question.now)) (queues_answer (ground_of s sight.view (past_of s sight.view)) question.now frame.now) moment) }
{
    if !around.policy.has_port(around.slot, question.port) {
        return refused(
            alloc,
            BAD_REQUEST,
            REQUEST_NOT_PERMITTED,
            frame,
            Change::Rated { moment },
        );
    }
    let asked = asked(frame, AskKind::QueueConfig, question.port);
    let (_, xid) = around.state.xids.next();
    let sent = queues_request(alloc, xid, question)?;
    Reaction::sending(alloc, sent, Change::Inquired { moment, asked })
}
