ghost use Rattle.std.specs.Prelude.{◌≡◌, OnOk, OnErr, is_ok};
ghost use Rattle.of10_port.specs.Ports.{port_number};
ghost use Rattle.port_view.specs.KnownPorts.{IsAscending, is_known, with_port, kept_of, changed_plainly};
ghost use Rattle.port_view.specs.Places.{IsPlace};

use crate::status_answers::{DELETE, Kept, answer_to};
use of10_port::{Port, PortStatus};
use std::alloc::AllocError;

/// Where the port of the number stands, or else would stand.
pub(crate) fn place_of(ports: &[Port], number: u16) -> Result<usize, usize>
    requires { IsAscending ports.now }
    ensures place { IsPlace number ports.now result }
    ensures known { is_ok result ≡ is_known number ports.now }
{
    ports.binary_search_by_key(&number, |port| port.number())
}

/// The place of the port that a status reports, and what becomes of the status.
pub(crate) fn judged(ports: &[Port], status: &PortStatus) -> (Result<usize, usize>, Kept)
    requires { IsAscending ports.now }
    ensures place { IsPlace (port_number status.now.port) ports.now result.0 }
    ensures answer { result.1 ≡ kept_of status.now ports.now }
{
    let place = place_of(ports, status.port.number());
    let answer = answer_to(status, place.is_ok(), ports.len());
    (place, answer)
}

/// Puts the port at its place, instead of one of its number.
pub(crate) fn put(
    ports: &mut Vec<Port>,
    place: Result<usize, usize>,
    port: Port,
) -> Result<(), AllocError>
    requires { IsPlace (port_number port) ports.old.items place }
    ensures put { OnOk result (ports.new.items ≡ with_port port ports.old.items) }
    ensures unchanged { OnErr result (ports.new.items ≡ ports.old.items) }
{
    match place {
        Ok(place) => {
            ports[place] = port;
            Ok(())
        }
        Err(place) => {
            ports.insert(place, port)?;
            Ok(())
        }
    }
}

/// Makes the change that a status reports.
pub(crate) fn change(
    ports: &mut Vec<Port>,
    place: Result<usize, usize>,
    status: &PortStatus,
) -> Result<(), AllocError>
    requires { IsPlace (port_number status.now.port) ports.old.items place }
    ensures changed { OnOk result (ports.new.items ≡ changed_plainly status.now ports.old.items) }
    ensures unchanged { OnErr result (ports.new.items ≡ ports.old.items) }
{
    if status.reason != DELETE {
        return put(ports, place, status.port);
    }
    match place {
        Ok(place) => {
            ports.remove(place);
            Ok(())
        }
        Err(_) => Ok(()),
    }
}
