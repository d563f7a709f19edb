//! What a desk makes of an event.

ghost use Rattle.std.specs.Prelude.{ℕ, ◌≡◌, ◌^◌, ◌||◌, leb, if◌then◌else◌, false, None, IfOk, OnErr, List, [], Result, Ok, Err};
ghost use Rattle.of10_message.specs.declared.fault.Unread.{Unread};
ghost use Rattle.of10_message.specs.Heads.{xid_of};
ghost use Rattle.of10_message.specs.Switch.{SwitchMessage, FeaturesReply, read_switch, has_bad_length};
ghost use Rattle.of10_port.specs.Features.{features_of};
ghost use Rattle.of10_message.specs.SwitchViews.{said_by};
ghost use Rattle.of10_message.specs.SwitchRanges.{IsSaid};
ghost use Rattle.desk_words.specs.declared.event.Event.TheVariants.{SwitchUp, SwitchMsg, SwitchDown, SliceUp, SliceMsg, SliceDown};
ghost use Rattle.desk_words.specs.declared.phase.Phase.TheVariants.{Begun, Opened};
ghost use Rattle.desk_words.specs.Openings.{features_said, phase_after};
ghost use Rattle.desk_words.specs.Sent.{echo_said};
ghost use Rattle.desk_words.specs.Verdicts.{is_ended, is_down};
ghost use Rattle.desk_words.specs.declared.verdict.Verdict.TheVariants.{Go, Close};
ghost use Rattle.proxy_core.specs.Desks.{Acts, ActsIn, Stays, Ends, PassesOn, is_begun_with, DeskStands, Steps};

use crate::desk::{Desk, Session};
use crate::own_messages::{echo, greeting, preparation};
use crate::waiting::{make_room, push_all};
use desk_words::{Event, Phase, Timed, Verdict};
use flowspace::Policy;
use of10_ctl::Frame;
use of10_message::{SwitchMessageView, Unread, read_switch};
use of10_port::FeaturesView;
use outbox::Outbox;
use std::alloc::{AllocError, Global};

/// How many bytes may wait for a switch.
const LANE_LIMIT: u64 = 1_048_576;

/// How many events a desk takes in.
const EVENTS: u64 = 1 << 60;

/// How far the connection is of a switch that connects.
fn connected(phase: Phase) -> Phase
    ensures { result ≡ phase_after phase SwitchUp }
{
    match phase {
        Phase::Fresh => Phase::Begun,
        Phase::Begun | Phase::Opened | Phase::Gone => phase,
    }
}

impl Desk {
    /// A desk of the policy, at which nothing has happened.
    pub fn new(alloc: Global, policy: Policy) -> Desk
        ensures { DeskStands policy [] result }
    {
        Desk {
            policy,
            phase: Phase::Fresh,
            events: 0,
            lane: Outbox::new(alloc, LANE_LIMIT),
            session: None,
        }
    }

    /// The switch connected: it is greeted.
    #[inline(never)]
    fn greet(&mut self, alloc: Global) -> Result<bool, AllocError>
        ensures ok { IfOk result (λ go. (moment : ℕ) → Acts self.old (record { event = SwitchUp; moment = moment }) go self.new) }
        ensures err { OnErr result (Stays self.old self.new) }
        ensures events { self.new.events ≡ self.old.events }
    {
        let messages = greeting(alloc)?;
        make_room(&mut self.lane, messages.len())?;
        self.phase = connected(self.phase);
        push_all(&mut self.lane, messages);
        Ok(true)
    }

    /// The switch's connection ends. What waits for slices stays.
    #[tactic(auto, unfolding(outbox::specs::Queues::push_all))]
    #[inline(never)]
    fn end(&mut self)
        ensures ended { Ends self.old self.new }
        ensures events { self.new.events ≡ self.old.events }
    {
        self.phase = Phase::Gone;
        self.lane.clear();
    }

    /// The switch has said what it is: it is prepared.
    fn open(&mut self, alloc: Global, told: &FeaturesView<'_>) -> Result<bool, AllocError>
        requires { IsSaid (FeaturesReply (features_of told.now)) }
        ensures ok { IfOk result (λ go. (moment : ℕ) (message : List ℕ) → read_switch message ≡ Ok (FeaturesReply (features_of told.now)) → ActsIn Begun self.old (record { event = SwitchMsg message; moment = moment }) go self.new) }
        ensures err { OnErr result (Stays self.old self.new) }
        ensures events { self.new.events ≡ self.old.events }
    {
        let features = told.copied(alloc)?;
        let session = Session::new(alloc, &self.policy, features)?;
        let messages = preparation(alloc)?;
        make_room(&mut self.lane, messages.len())?;
        self.phase = Phase::Opened;
        self.session = Some(session);
        push_all(&mut self.lane, messages);
        Ok(true)
    }

    /// A message that doesn't say what the switch is, with what answers it.
    fn answer(&mut self, messages: Vec<Frame>) -> Result<bool, AllocError>
        ensures ok { IfOk result (λ go. (moment : ℕ) (message : List ℕ) (said : Result SwitchMessage Unread) → read_switch message ≡ said → has_bad_length said ≡ false → features_said said ≡ None → echo_said (xid_of message) said ≡ messages.items → ActsIn Begun self.old (record { event = SwitchMsg message; moment = moment }) go self.new) }
        ensures err { OnErr result (Stays self.old self.new) }
        ensures events { self.new.events ≡ self.old.events }
    {
        make_room(&mut self.lane, messages.len())?;
        push_all(&mut self.lane, messages);
        Ok(true)
    }

    /// A message under a transaction id of a switch that hasn't said what it is.
    fn hear_said(
        &mut self,
        alloc: Global,
        xid: u32,
        said: &SwitchMessageView<'_>,
    ) -> Result<bool, AllocError>
        requires { IsSaid (said_by said.now) }
        ensures ok { IfOk result (λ go. (moment : ℕ) (message : List ℕ) → read_switch message ≡ Ok (said_by said.now) → xid_of message ≡ xid → ActsIn Begun self.old (record { event = SwitchMsg message; moment = moment }) go self.new) }
        ensures err { OnErr result (Stays self.old self.new) }
        ensures events { self.new.events ≡ self.old.events }
    {
        match said {
            SwitchMessageView::FeaturesReply(told) => self.open(alloc, told),
            _ => {
                let messages = echo(alloc, xid, said)?;
                self.answer(messages)
            }
        }
    }

    /// A message that can't be read, of a switch that hasn't said what it is. One whose length doesn't count
    /// its header ends the connection.
    fn hear_unread(&mut self, alloc: Global, fault: Unread) -> Result<bool, AllocError>
        ensures ok { IfOk result (λ go. (moment : ℕ) (message : List ℕ) → read_switch message ≡ Err fault → ActsIn Begun self.old (record { event = SwitchMsg message; moment = moment }) go self.new) }
        ensures err { OnErr result (Stays self.old self.new) }
        ensures events { self.new.events ≡ self.old.events }
    {
        match fault {
            Unread::BadLength => {
                self.end();
                Ok(false)
            }
            _ => self.answer(Vec::new(alloc)),
        }
    }

    /// A message of a switch that hasn't said what it is, which is read once.
    #[inline(never)]
    fn hear_first(&mut self, alloc: Global, frame: &Frame) -> Result<bool, AllocError>
        ensures ok { IfOk result (λ go. (moment : ℕ) → ActsIn Begun self.old (record { event = SwitchMsg frame.now; moment = moment }) go self.new) }
        ensures err { OnErr result (Stays self.old self.new) }
        ensures events { self.new.events ≡ self.old.events }
    {
        match read_switch(frame) {
            Ok(said) => self.hear_said(alloc, frame.head().xid, &said),
            Err(fault) => self.hear_unread(alloc, fault),
        }
    }

    /// A message for the session, if there is one. Whether the connection goes on.
    #[inline(always)]
    fn pass_on(&mut self, alloc: Global, frame: &Frame) -> Result<bool, AllocError>
        ensures ok { IfOk result (λ go. (moment : ℕ) → PassesOn moment frame.now go self.old self.new) }
        ensures err { OnErr result (Stays self.old self.new) }
        ensures events { self.new.events ≡ self.old.events }
    {
        match &mut self.session {
            Some(session) => session.hear_switch(alloc, &mut self.lane, frame),
            None => Ok(false),
        }
    }

    /// A message of a switch that has said what it is.
    #[inline(always)]
    fn hear_later(&mut self, alloc: Global, frame: &Frame) -> Result<bool, AllocError>
        ensures ok { IfOk result (λ go. (moment : ℕ) → ActsIn Opened self.old (record { event = SwitchMsg frame.now; moment = moment }) go self.new) }
        ensures err { OnErr result (Stays self.old self.new) }
        ensures events { self.new.events ≡ self.old.events }
    {
        if !self.pass_on(alloc, frame)? {
            self.end();
            return Ok(false);
        }
        Ok(true)
    }

    /// A message of the switch.
    #[inline(always)]
    fn hear_switch(&mut self, alloc: Global, frame: &Frame) -> Result<bool, AllocError>
        ensures ok { IfOk result (λ go. (moment : ℕ) → Acts self.old (record { event = SwitchMsg frame.now; moment = moment }) go self.new) }
        ensures err { OnErr result (Stays self.old self.new) }
        ensures events { self.new.events ≡ self.old.events }
    {
        match self.phase {
            Phase::Begun => self.hear_first(alloc, frame),
            Phase::Opened => self.hear_later(alloc, frame),
            Phase::Fresh | Phase::Gone => Ok(false),
        }
    }

    /// Keeps a message's memory for the next one that a slice gets, if there is a session.
    fn keep(&mut self, frame: Frame)
        ensures stays { Stays self.old self.new }
        ensures events { self.new.events ≡ self.old.events }
    {
        match &mut self.session {
            Some(session) => session.spare.message = frame.into_vec(),
            None => (),
        }
    }

    /// A message of the switch, whose memory serves again.
    #[inline(always)]
    fn take_in(&mut self, alloc: Global, frame: Frame) -> Result<bool, AllocError>
        ensures ok { IfOk result (λ go. (moment : ℕ) → Acts self.old (record { event = SwitchMsg frame; moment = moment }) go self.new) }
        ensures err { OnErr result (Stays self.old self.new) }
        ensures events { self.new.events ≡ self.old.events }
    {
        let go = self.hear_switch(alloc, &frame)?;
        self.keep(frame);
        Ok(go)
    }

    /// The switch's connection ended.
    fn lose_switch(&mut self) -> bool
        ensures acts { (moment : ℕ) → Acts self.old (record { event = SwitchDown; moment = moment }) result self.new }
        ensures events { self.new.events ≡ self.old.events }
    {
        match self.phase {
            Phase::Fresh => false,
            Phase::Begun | Phase::Opened | Phase::Gone => {
                self.end();
                true
            }
        }
    }

    /// A slice's controller connected.
    #[inline(never)]
    fn greet_slice(&mut self, alloc: Global, slot: u8) -> Result<bool, AllocError>
        ensures ok { IfOk result (λ go. (moment : ℕ) → Acts self.old (record { event = SliceUp slot; moment = moment }) go self.new) }
        ensures err { OnErr result (Stays self.old self.new) }
        ensures events { self.new.events ≡ self.old.events }
    {
        match &mut self.session {
            Some(session) => session.come(alloc, slot),
            None => Ok(false),
        }
    }

    /// A message of a slice's controller.
    #[inline(never)]
    fn hear_slice(
        &mut self,
        alloc: Global,
        slot: u8,
        frame: &Frame,
        moment: u64,
    ) -> Result<bool, AllocError>
        ensures ok { IfOk result (λ go. Acts self.old (record { event = SliceMsg slot frame.now; moment = moment }) go self.new) }
        ensures err { OnErr result (Stays self.old self.new) }
        ensures events { self.new.events ≡ self.old.events }
    {
        match &mut self.session {
            Some(session) => session.hear(alloc, &mut self.lane, slot, frame, moment),
            None => Ok(false),
        }
    }

    /// The slot is one of the policy, and the switch has connected.
    fn is_begun_with(&self, slot: u8) -> bool
        ensures { result ≡ is_begun_with self.now.phase self.now.policy slot }
    {
        matches!(self.phase, Phase::Begun) && usize::from(slot) < self.policy.slices().len()
    }

    /// The connection of a slice's controller ended.
    fn lose_slice(&mut self, slot: u8) -> bool
        ensures acts { (moment : ℕ) → Acts self.old (record { event = SliceDown slot; moment = moment }) result self.new }
        ensures events { self.new.events ≡ self.old.events }
    {
        match &mut self.session {
            Some(session) => session.go(slot),
            None => self.is_begun_with(slot),
        }
    }

    /// One event, while the switch's connection hasn't ended. Whether the connection goes on that it came from.
    #[inline(always)]
    fn act(&mut self, alloc: Global, timed: Timed) -> Result<bool, AllocError>
        ensures ok { IfOk result (λ go. Acts self.old timed go self.new) }
        ensures err { OnErr result (Stays self.old self.new) }
        ensures memory { OnErr result (is_down timed.event ≡ false) }
        ensures events { self.new.events ≡ self.old.events }
    {
        let moment = timed.moment;
        match timed.event {
            Event::SwitchUp => self.greet(alloc),
            Event::SwitchMsg(frame) => self.take_in(alloc, frame),
            Event::SwitchDown => Ok(self.lose_switch()),
            Event::SliceUp(slot) => self.greet_slice(alloc, slot),
            Event::SliceMsg(slot, frame) => self.hear_slice(alloc, slot, &frame, moment),
            Event::SliceDown(slot) => Ok(self.lose_slice(slot)),
        }
    }

    /// Whether nothing more comes: the switch's connection has ended, or there were 2^60 events.
    fn is_over(&self) -> bool
        ensures { result ≡ (is_ended self.now.phase || leb (2 ^ 60) self.now.events) }
    {
        matches!(self.phase, Phase::Gone) || self.events >= EVENTS
    }

    /// One event. `AllocError` leaves what the desk stands for as it was, though memory that was taken may
    /// stay, and the event isn't counted. It doesn't come for the end of a connection. After `Ended` nothing
    /// more changes.
    #[inline(always)]
    pub fn step(&mut self, alloc: Global, timed: Timed) -> Result<Verdict, AllocError>
        ensures { Steps self.old timed result self.new }
    {
        if self.is_over() {
            return Ok(Verdict::Ended);
        }
        let events = self.events + 1;
        let go = self.act(alloc, timed)?;
        self.events = events;
        Ok(verdict_of(go))
    }
}

fn verdict_of(go: bool) -> Verdict
    ensures { result ≡ (if go then Go else Close) }
{
    if go { Verdict::Go } else { Verdict::Close }
}
