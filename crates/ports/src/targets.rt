// By which ports a frame goes on to a set of neighbours.
ghost use Rattle.std.specs.Prelude.{◌≡◌};
ghost use Rattle.sets.specs.Sets.{has};
ghost use Rattle.ports.specs.Ports.{ports_of, onward};
ghost use Rattle.ports.specs.Flags.{Flags, marked};

use crate::{Port, PortId, lowest_port};
use sets::{BridgeId, BridgeSet};

// Sets the flag of the lowest port that leads to a neighbour, if one does.
fn mark(flags: &mut [bool; 16], port: Option<PortId>)
    ensures { flags.new ≡ marked flags.old port }
{
    if let Some(p) = port {
        flags[p.index()] = true;
    }
}

// The ports by which a frame goes on to each of the neighbours: for each the lowest that leads there by a link that is up.
pub fn ports_to(ports: &[Port; 16], neighbours: BridgeSet) -> [bool; 16]
    ensures { Flags result (onward (has neighbours.bits) (ports_of ports.now)) }
{
    let mut flags = [false; 16];
    let mut rest = neighbours;
    // Stays: a rule of the project; the loop is left as soon as no neighbour is left, by its label.
    'neighbours: for c in 0..128u8 {
        if rest.is_empty() {
            break 'neighbours;
        }
        let neighbour = BridgeId::new(c).unwrap();
        if rest.contains(neighbour) {
            mark(&mut flags, lowest_port(ports, neighbour));
            rest = rest.without(neighbour);
        }
    }
    flags
}
