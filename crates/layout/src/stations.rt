// A station of the net.
use crate::names::Name;
use scan::parts::PortRef;

/// A station of the net.
#[derive(Clone, Copy, PartialEq, Eq, Debug)]
pub struct Station {
    pub name: Name,
    pub address: [u8; 6],
    pub port: PortRef,
}
