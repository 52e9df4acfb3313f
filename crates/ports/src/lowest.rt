// Of several links to one neighbour that are up, frames go by that with the lowest port.
ghost use Rattle.std.specs.Prelude.{◌≡◌, true, MatchOption};
ghost use Rattle.ports.specs.Ports.{ports_of, leads, leads_to, none_below};

use crate::{Link, Port, PortId};
use sets::BridgeId;

// Does the port lead to that neighbour by a link that is up?
fn leads_to(port: Port, neighbour: BridgeId) -> bool
    ensures { result ≡ leads port neighbour.value }
{
    port == Port::Trunk(Link {
        neighbour,
        up: true,
    })
}

// The lowest port that leads to a neighbour by a link that is up.
pub fn lowest_port(ports: &[Port; 16], neighbour: BridgeId) -> Option<PortId>
    ensures { MatchOption result (none_below (ports_of ports.now) neighbour.value 16 ≡ true)
        (λ p. (leads_to (ports_of ports.now p.value) neighbour.value ≡ true) × (none_below (ports_of ports.now) neighbour.value p.value ≡ true)) }
{
    ports
        .iter()
        .position(|port| leads_to(*port, neighbour))
        .and_then(|i| PortId::new(i as u8))
}
