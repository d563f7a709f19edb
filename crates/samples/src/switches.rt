//! Ports, and what a switch says of itself.

ghost use Rattle.std.specs.Prelude.{◌≡◌, IfOk, [], ◌∷◌};
ghost use Rattle.of10_port.specs.Ports.{bare_port};
ghost use Rattle.of10_port.specs.declared.protocol.TheConstants.{LOCAL};
ghost use Rattle.samples.specs.Makers.{switch_with};

use of10_port::protocol::LOCAL;
use of10_port::{Features, Port, Ports};
use std::alloc::{AllocError, Global};

/// The features of a switch with these ports.
pub fn features(alloc: Global, ports: &[Port]) -> Result<Features, AllocError>
    ensures { IfOk result (λ f. f ≡ switch_with ports.now) }
{
    Ok(Features {
        datapath: 0xa1,
        buffers: 256,
        tables: 1,
        capabilities: 0,
        actions: 0xfff,
        ports: Ports::of(alloc, ports)?,
    })
}

/// The features of a switch with three ports and its own.
pub fn three_ports(alloc: Global) -> Result<Features, AllocError>
    ensures { IfOk result (λ f. f ≡ switch_with (bare_port 1 ∷ bare_port 2 ∷ bare_port 3 ∷ bare_port LOCAL ∷ [])) }
{
    let ports = [
        Port::bare(1),
        Port::bare(2),
        Port::bare(3),
        Port::bare(LOCAL),
    ];
    features(alloc, &ports)
}
