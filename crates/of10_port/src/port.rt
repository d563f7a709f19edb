//! Ports as a switch describes them (OpenFlow 1.0.0, section 5.2.1).

ghost use Rattle.std.specs.Prelude.{◌≡◌, ◌++◌, ◌*◌, IfOk, OnOk, length};
ghost use Rattle.of10_port.specs.Ports.{IsPort, bare_port, port_number, port_config, port_bytes};

use of10_model::wire::{set_u16, u16_at, u32_at};
use std::alloc::{AllocError, Global};
use std::marker::Model;

/// A port as a switch describes it, in 48 bytes: its number, hardware address, name and six words
/// (OpenFlow 1.0.0, section 5.2.1).
#[derive(Clone, Copy, Debug, PartialEq, Eq)]
pub struct Port {
    raw: [u8; 48],
}

impl Model for Port {
    ghost use Rattle.std.specs.Prelude.{ℕ, List};

    ghost Value = { List ℕ };

    ghost view = { λ p. p.raw };

    ghost inverse = { λ raw. record { raw = raw } };
}

impl Port {
    /// The port that these bytes describe.
    pub fn of(raw: [u8; 48]) -> Port
        ensures { result ≡ raw }
    {
        Port { raw }
    }

    /// A port of this number, whose other bytes are zero.
    pub fn bare(number: u16) -> Port
        ensures value { result ≡ bare_port number }
        ensures number { port_number result ≡ number }
    {
        let mut raw = [0; 48];
        set_u16(&mut raw, 0, number);
        Port { raw }
    }

    /// The bytes that describe it.
    pub fn raw(&self) -> &[u8; 48]
        ensures value { result.now ≡ self.now }
        ensures size { length self.now ≡ 48 }
    {
        &self.raw
    }

    /// Its number.
    pub fn number(&self) -> u16
        ensures { result ≡ port_number self.now }
    {
        u16_at(&self.raw, 0)
    }

    /// Its configuration, of which each bit says one thing.
    pub fn config(&self) -> u32
        ensures { result ≡ port_config self.now }
    {
        u32_at(&self.raw, 24)
    }
}

/// A list of ports.
#[derive(Debug, Drop)]
pub struct Ports {
    items: Vec<Port>,
}

impl Model for Ports {
    ghost use Rattle.std.specs.Prelude.{ℕ, List};

    ghost Value = { List (List ℕ) };

    ghost view = { λ p. p.items.items };
}

impl Ports {
    /// A copy of the ports.
    pub fn of(alloc: Global, items: &[Port]) -> Result<Ports, AllocError>
        ensures { IfOk result (λ p. p ≡ items.now) }
    {
        Ok(Ports {
            items: Vec::from_slice(alloc, items)?,
        })
    }

    /// The same ports, with no copy.
    pub fn from_vec(items: Vec<Port>) -> Ports
        ensures { result ≡ items.items }
    {
        Ports { items }
    }

    pub fn as_slice(&self) -> &[Port]
        ensures { result.now ≡ self.now }
    {
        &self.items
    }

    /// The same ports, with no copy.
    pub fn into_vec(self) -> Vec<Port>
        ensures { result.items ≡ self }
    {
        self.items
    }
}

/// Appends the bytes of the ports.
pub fn put_ports(out: &mut Vec<u8>, ports: &[Port]) -> Result<(), AllocError>
    ensures written { OnOk result (out.new.items ≡ out.old.items ++ port_bytes ports.now) }
    ensures size { OnOk result (length (port_bytes ports.now) ≡ 48 * length ports.now) }
{
    for port in ports {
        out.extend_from_slice(port.raw())?;
    }
    Ok(())
}
