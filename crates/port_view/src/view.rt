ghost use Rattle.std.specs.Prelude.{ℕ, ◌≡◌, ◌≤◌, List, [], ◌∷◌, length, IfOk, OnOk, OnErr, IsTrue};
ghost use Rattle.of10_ctl.specs.declared.kind.TheConstants.{FEATURES_REPLY};
ghost use Rattle.of10_ctl.specs.Kinds.{IsOf};
ghost use Rattle.of10_port.specs.declared.features.Features.{Features as FeaturesTold};
ghost use Rattle.of10_port.specs.declared.status.PortStatus.{PortStatus as StatusView};
ghost use Rattle.of10_port.specs.Features.{spell_features};
ghost use Rattle.flowspace.specs.Swaps.{pairs_of};
ghost use Rattle.port_turns.specs.Sent.{turn_out};
ghost use Rattle.port_view.specs.KnownPorts.{IsAscending, with_told, first_known, kept_of, is_kept, changed, known_of};
ghost use Rattle.port_view.specs.Places.{PortsStand};
ghost use Rattle.port_view.specs.SlicePorts.{ports_of_slice, features_with, flooded};

use crate::slice_ports::{buffers_for, flood_ports, ports_of};
use crate::sorted_ports::{change, judged, place_of, put};
use crate::status_answers::Kept;
use flowspace::{SwitchPolicy, is_in_port};
use of10_ctl::Frame;
use of10_port::{Features, Port, PortStatus, Ports};
use std::alloc::{AllocError, Global};
use std::marker::Model;

/// The ports that a switch has reported, at most 1,364, in ascending order of their numbers.
#[derive(Drop)]
pub struct PortView {
    ports: Vec<Port>,
}

impl Model for PortView {
    ghost use Rattle.std.specs.Prelude.{ℕ, ◌≤◌, List, length};
    ghost use Rattle.port_view.specs.KnownPorts.{IsAscending};

    ghost Value = { List (List ℕ) };

    ghost view = { λ v. v.ports.items };

    ghost invariant = { λ v. IsAscending v.ports.items × (length v.ports.items ≤ 1364) };
}

/// Adds a port that a FEATURES_REPLY reports to those before it.
fn tell(known: &mut Vec<Port>, port: Port) -> Result<(), AllocError>
    requires { IsAscending known.old.items }
    ensures { OnOk result (known.new.items ≡ with_told known.old.items port) }
{
    let number = port.number();
    if !is_in_port(number) {
        return Ok(());
    }
    let place = place_of(known, number);
    put(known, place, port)
}

/// The known ports of a FEATURES_REPLY.
fn first_known(alloc: Global, ports: &[Port]) -> Result<Vec<Port>, AllocError>
    ensures value { IfOk result (λ v. v.items ≡ first_known ports.now) }
    ensures order { IfOk result (λ v. IsAscending v.items) }
{
    let mut known = Vec::with_capacity(alloc, ports.len())?;
    for port in ports {
        tell(&mut known, *port)?;
    }
    Ok(known)
}

impl PortView {
    /// The ports that a switch reports as it comes up. One whose number stands for no port is passed over;
    /// of two of one number the later one counts.
    pub fn new(alloc: Global, features: &Features) -> Result<PortView, AllocError>
        requires { length features.now.ports ≤ 1364 }
        ensures { IfOk result (λ view. PortsStand features.now [] view) }
    {
        Ok(PortView {
            ports: first_known(alloc, features.ports.as_slice())?,
        })
    }

    /// All known ports, in ascending order of their numbers.
    pub fn ports(&self) -> &[Port]
        ensures value { result.now ≡ self.now }
        ensures order { IsAscending self.now }
        ensures few { length self.now ≤ 1364 }
    {
        &self.ports
    }

    /// What `take_status` would answer now, if memory doesn't run out.
    pub fn test_status(&self, status: &PortStatus) -> Kept
        ensures value { result ≡ kept_of status.now self.now }
        ensures answer { (features : FeaturesTold) (statuses : List StatusView) → PortsStand features statuses self.now → result ≡ kept_of status.now (known_of features statuses) }
    {
        let (_, answer) = judged(&self.ports, status);
        answer
    }

    /// Takes in what a switch reported of one port. A status that isn't kept changes nothing and
    /// takes no memory, and running out of memory changes nothing.
    pub fn take_status(&mut self, status: &PortStatus) -> Result<Kept, AllocError>
        ensures value { IfOk result (λ kept. kept ≡ kept_of status.now self.old) }
        ensures ports { OnOk result (self.new ≡ changed status.now self.old) }
        ensures answer { IfOk result (λ kept. (features : FeaturesTold) (statuses : List StatusView) → PortsStand features statuses self.old → kept ≡ kept_of status.now (known_of features statuses)) }
        ensures stands { OnOk result ((features : FeaturesTold) (statuses : List StatusView) → PortsStand features statuses self.old → PortsStand features (status.now ∷ statuses) self.new) }
        ensures unchanged { OnErr result (self.new ≡ self.old) }
        ensures memory { OnErr result (IsTrue (is_kept status.now self.old)) }
    {
        let (place, answer) = judged(&self.ports, status);
        match answer {
            Kept::Kept => {
                change(&mut self.ports, place, status)?;
                Ok(Kept::Kept)
            }
            Kept::Ignored | Kept::TooManyPorts => Ok(answer),
        }
    }

    /// A FEATURES_REPLY with the ports of a slice, under the switch's own numbers, and of the switch's features what
    /// the slice is shown (OpenFlow 1.0.0, section 5.3.1).
    pub fn features_of(
        &self,
        alloc: Global,
        policy: &SwitchPolicy,
        slot: u8,
        of: &Features,
        xid: u32,
    ) -> Result<Frame, AllocError>
        ensures value { IfOk result (λ f. f ≡ spell_features (features_with of.now (ports_of_slice policy.now.rules slot self.now)) xid) }
        ensures kind { IfOk result (λ f. IsOf FEATURES_REPLY f) }
        ensures answer { (features : FeaturesTold) (statuses : List StatusView) → PortsStand features statuses self.now → IfOk result (λ f. f ≡ spell_features (features_with of.now (ports_of_slice policy.now.rules slot (known_of features statuses))) xid) }
    {
        let shown = Features {
            datapath: of.datapath,
            buffers: buffers_for(of.buffers),
            tables: 1,
            capabilities: of.capabilities,
            actions: of.actions,
            ports: Ports::from_vec(ports_of(alloc, &self.ports, policy, slot)?),
        };
        shown.encode(alloc, xid)
    }

    /// The FEATURES_REPLY that a slice is sent: `features_of`, with the port numbers that the slice is shown.
    pub fn features_for(
        &self,
        alloc: Global,
        policy: &SwitchPolicy,
        slot: u8,
        of: &Features,
        xid: u32,
    ) -> Result<Frame, AllocError>
        ensures value { IfOk result (λ f. f ≡ turn_out (pairs_of policy.now.swaps slot) (spell_features (features_with of.now (ports_of_slice policy.now.rules slot self.now)) xid)) }
        ensures kind { IfOk result (λ f. IsOf FEATURES_REPLY f) }
        ensures answer { (features : FeaturesTold) (statuses : List StatusView) → PortsStand features statuses self.now → IfOk result (λ f. f ≡ turn_out (pairs_of policy.now.swaps slot) (spell_features (features_with of.now (ports_of_slice policy.now.rules slot (known_of features statuses))) xid)) }
    {
        let mut reply = self.features_of(alloc, policy, slot, of, xid)?;
        port_turns::turn_out(alloc, policy, slot, &mut reply)?;
        Ok(reply)
    }

    /// The numbers of the slice's ports that a flood goes out of, ascending: all but the switch's own port
    /// and those that are kept out of floods; with `all` those too.
    pub fn flood_ports(
        &self,
        alloc: Global,
        policy: &SwitchPolicy,
        slot: u8,
        all: bool,
    ) -> Result<Vec<u16>, AllocError>
        ensures value { IfOk result (λ v. v.items ≡ flooded all (ports_of_slice policy.now.rules slot self.now)) }
        ensures answer { (features : FeaturesTold) (statuses : List StatusView) → PortsStand features statuses self.now → IfOk result (λ v. v.items ≡ flooded all (ports_of_slice policy.now.rules slot (known_of features statuses))) }
    {
        flood_ports(alloc, &self.ports, policy, slot, all)
    }
}
