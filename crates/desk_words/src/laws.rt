//! Laws of the definitions. Each function's contract is the law; its body does nothing.

ghost use Rattle.std.specs.Prelude.{ℕ, ◌≡◌, true, List, Result};
ghost use Rattle.std.specs.declared.alloc.AllocError.{AllocError};
ghost use Rattle.of10_port.specs.declared.features.Features.{Features};
ghost use Rattle.flowspace.specs.Policies.{PolicyView};
ghost use Rattle.recording.specs.Recordings.{Told};
ghost use Rattle.desk_words.specs.declared.event.Timed.{Timed};
ghost use Rattle.desk_words.specs.declared.verdict.Verdict.{Verdict};
ghost use Rattle.slice_words.specs.Items.{Settings};
ghost use Rattle.desk_words.specs.Histories.{is_slot, side_of};
ghost use Rattle.desk_words.specs.Numbers.{AreNumbered};
ghost use Rattle.desk_words.specs.Operations.{Operation, IsLegal, queue_of, lane_of};
ghost use Rattle.desk_words.specs.Reports.{LinePlace};
ghost use Rattle.desk_words.specs.Laws.{IsPhaseByEvents, IsAlone, AreAlike, IsErasable, IsBlindBefore, IsSilentUntilUp, IsDownAfterDown, IsUpByEvents, sent_since, taken_since, lane_since, lane_taken_since, AreInOrder, SliceWaits, LaneWaits, AreCompletedOnce, SeesItsSwitch, AreKnownInOrder, AreKnownAsTold, MakesTheFirst, GetsTheFirst, ComeAtTheirSwitch, ComeBeforeLater, ShowsEachSlice, IsClosedByVerdict, IsToldAsAlone};

/// The switch's connection has ended where, after the switch connected, it disconnected or a message of a bad
/// length came. The opening is the first FEATURES_REPLY between.
pub fn phase_by_events()
    ensures { (h : List Timed) → IsPhaseByEvents h }
{}

/// What a slice is sent over a history is what a proxy sends that serves it alone, with its settings on
/// its view of that history.
pub fn slice_is_served_alone()
    ensures { (policy : PolicyView) (slot : ℕ) (h : List Timed) → IsAlone policy slot h }
{}

/// A slice with the same settings and the same view in two worlds is sent the same in both.
pub fn two_worlds()
    ensures { (policy : PolicyView) (slot : ℕ) (h : List Timed) (other_policy : PolicyView) (other_slot : ℕ) (other_h : List Timed) → AreAlike policy slot h other_policy other_slot other_h }
{}

/// Without the events of all other slices a slice sees the same and is sent the same.
pub fn erasure()
    ensures { (policy : PolicyView) (slot : ℕ) (h : List Timed) → IsErasable policy slot h }
{}

/// Before the switch says what it is a slice sees nothing.
pub fn blind_before_the_opening()
    ensures { (policy : PolicyView) (slot : ℕ) (h : List Timed) → IsBlindBefore policy slot h }
{}

/// A slice isn't up after its down; and one that isn't up is sent nothing, and isn't up, until it connects.
pub fn silent_until_up()
    ensures down { (policy : PolicyView) (slot moment : ℕ) (h : List Timed) → IsDownAfterDown policy slot moment h }
    ensures silent { (policy : PolicyView) (slot : ℕ) (later h : List Timed) → IsSilentUntilUp policy slot later h }
{}

/// A slice is up where the switch has said what it is and hasn't ended, and of the events since that the
/// last that is the slice's up, its down or a message that ends its connection is an up.
pub fn up_by_events()
    ensures { (policy : PolicyView) (slot : ℕ) (h : List Timed) → IsUpByEvents policy slot h }
{}

/// What was taken for a destination since its queue was last emptied, what waits, and what was dropped
/// are, in this order, all that it was sent since; nothing was dropped unless the queue is choked. What a step
/// sends waits where there is room for it and the queue isn't choked.
pub fn messages_are_taken_in_order()
    ensures slices { (policy : PolicyView) (slot : ℕ) (operations : List Operation) → IsLegal policy operations → AreInOrder (sent_since policy slot operations) (taken_since policy slot operations) (queue_of policy slot operations) }
    ensures lane { (policy : PolicyView) (operations : List Operation) → IsLegal policy operations → AreInOrder (lane_since policy operations) (lane_taken_since policy operations) (lane_of policy operations) }
    ensures slices_wait { (policy : PolicyView) (slot : ℕ) (before : List Operation) (timed : Timed) (reply : Result Verdict AllocError) → SliceWaits policy slot before timed reply }
    ensures lane_waits { (policy : PolicyView) (before : List Operation) (timed : Timed) (reply : Result Verdict AllocError) → LaneWaits policy before timed reply }
{}

/// The bytes of a connection before a record are those of its records since it began, in their order. With
/// the record's bytes its frames are those that it had before, and then those that the record completes.
pub fn frames_are_completed_once()
    ensures { (r : Told) (before : List Told) → AreCompletedOnce r before }
{}

/// Once the switch has said what it is, a slice has seen its features, and knows its own of the known
/// ports. Those ascend by their numbers, and are at most 1,364 where those of the opening are.
pub fn slice_sees_its_switch()
    ensures seen { (policy : PolicyView) (slot : ℕ) (h : List Timed) (features : Features) → SeesItsSwitch policy slot h features }
    ensures order { (h : List Timed) → AreKnownInOrder h }
{}

/// Each buffered packet of a slice came with a number. Under the number of one that the slice holds no packet
/// came since; and what came last under a number is the slice's packet that came with it, or none of the slice's.
pub fn held_packets_keep_their_numbers()
    ensures { (policy : PolicyView) (slot : ℕ) (s : Settings) (h : List Timed) → is_slot policy slot ≡ true → AreNumbered s (side_of policy slot h) }
{}

/// No port is known before the switch says what it is. Then the known ports are those of its features,
/// changed by each status that it sent since.
pub fn ports_are_known_as_told()
    ensures { (h : List Timed) → AreKnownAsTold h }
{}

/// The events of a record are the first of the messages that it completes: those that come while the
/// switch's connection hasn't ended, or while the slice is up. A record of another kind has one event.
pub fn record_makes_the_first()
    ensures { (policy : PolicyView) (r : Told) (before : List Told) → MakesTheFirst policy r before }
{}

/// The events of a record come one after another in the history of its switch, until that is over; the
/// histories of all other switches stay as they were.
pub fn events_come_at_their_switch()
    ensures order { (h events : List Timed) → GetsTheFirst h events }
    ensures place { (policy : PolicyView) (r : Told) (before : List Told) → ComeAtTheirSwitch policy r before }
{}

/// The events of the first records of a recording, each with its switch and the history before it, are the
/// first of all its events, whatever records come behind them.
pub fn earlier_records_have_the_first_events()
    ensures { (policy : PolicyView) (earlier later : List Told) → ComeBeforeLater policy earlier later }
{}

/// The lines of an event for the slices are, by slot and each slice once, those of what it is sent there;
/// there are none once the history is over.
pub fn event_shows_each_slice()
    ensures { (policy : PolicyView) (place : LinePlace) (h : List Timed) (timed : Timed) → ShowsEachSlice policy place h timed }
{}

/// The slice that connected or sent a message is up after that, unless the verdict on it is to close its
/// connection. So the report's line of a connection that is closed is where the verdict says so.
pub fn slice_is_closed_by_the_verdict()
    ensures { (policy : PolicyView) (slot : ℕ) (h : List Timed) (timed : Timed) → IsClosedByVerdict policy slot h timed }
{}

/// What the lines of a switch's events say a slice is sent, from the switch's last up on, is, one after the
/// other, what a proxy sends that serves the slice alone on its view of the switch.
pub fn slice_is_told_as_alone()
    ensures { (policy : PolicyView) (slot switch : ℕ) (records : List Told) → IsToldAsAlone policy slot switch records }
{}
