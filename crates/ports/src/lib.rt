// The ports of a bridge, and by which of them a frame goes out.
#![tactic(auto)]

mod chassis;
mod egress;
mod ingress;
mod lowest;
mod port;
mod targets;
mod vlan;

pub use chassis::Chassis;
pub use egress::{egress_ports, is_served};
pub use ingress::{Inbound, Ingress};
pub use lowest::lowest_port;
pub use port::{Link, Port, PortId, port_at};
pub use targets::ports_to;
pub use vlan::Vlan;

// The most ports of a bridge.
pub const MOST_PORTS: usize = 16;
