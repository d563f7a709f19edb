//! Laws of the definitions. Each function's contract is the law; its body does nothing.

ghost use Rattle.std.specs.Prelude.{List};
ghost use Rattle.flowspace.specs.Policies.{PolicyView};
ghost use Rattle.desk_words.specs.declared.event.Timed.{Timed};
ghost use Rattle.answer_bounds.specs.Bounds.{IsFramed, AreFramed, FitsQueues, SendsLittle};

/// Where all messages that come in are frames, one event has at most 262,144 bytes sent to the switch and
/// 524,492 to each slice. An event that reports no statistics has at most two messages sent to each slice.
/// Each message has at most 65,535 bytes.
pub fn answers_are_bounded()
    ensures { (policy : PolicyView) (h : List Timed) (timed : Timed) → AreFramed h → IsFramed timed.event → SendsLittle policy h timed }
{}

/// So what one event has sent always fits the limits of the queues, for the switch and for each slice.
pub fn answers_fit()
    ensures { (policy : PolicyView) (h : List Timed) (timed : Timed) → AreFramed h → IsFramed timed.event → FitsQueues policy h timed }
{}
