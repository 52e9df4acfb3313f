// Prints a net: boxes with their ports and cables, then stations.
use layout::net::Layout;
use layout::stations::Station;
use scan::parts::PortRef;
use std::{fmt, io};
use wiring::boxes::{Port, Power, Wiring};

/// Prints a port that is in use.
fn print_port(rt: &HostRuntime, wiring: &Wiring, at: PortRef) -> io::Result<()> {
    match wiring.port(at) {
        Port::Absent | Port::Free => Ok(()),
        Port::Access(vlan) => println!(rt; "  {at} access vlan {vlan}"),
        Port::Cabled(to) => println!(rt; "  {at} cable to {to}"),
    }
}

/// Prints a box with its ports, if it is there.
fn print_box(rt: &HostRuntime, wiring: &Wiring, node: u8) -> io::Result<()> {
    let state = match wiring.power(node) {
        Power::Absent => return Ok(()),
        Power::On => "on",
        Power::Off => "off",
    };
    let number = wiring.number(node);
    println!(rt; "box {node}: bridge {number}, {state}")?;
    // Stays: a port is asked for by its number, which is printed too; there is no list of ports to go over.
    for port in 0..16u8 {
        print_port(rt, wiring, PortRef { node, port })?;
    }
    Ok(())
}

/// An address, printed as six pairs of hex digits with colons.
#[derive(Clone, Copy)]
struct Mac([u8; 6]);

impl fmt::Display for Mac {
    fn fmt<W: fmt::Write>(&self, f: &mut fmt::Formatter<W>) -> fmt::Result {
        let [a, b, c, d, e, g] = self.0;
        // Stays: the one place where an address is written out.
        write!(f, "{a:02x}:{b:02x}:{c:02x}:{d:02x}:{e:02x}:{g:02x}")
    }
}

/// Prints a station.
fn print_station(rt: &HostRuntime, station: &Station) -> io::Result<()> {
    let Station {
        name,
        address,
        port,
    } = *station;
    let address = Mac(address);
    println!(rt; "station {name}: {address} at {port}")
}

/// Prints the whole net.
pub fn print_layout(rt: &HostRuntime, layout: &Layout) -> io::Result<()> {
    let wiring = layout.wiring();
    // Stays: a box is asked for by its number, which is printed too; there is no list of boxes to go over.
    for node in 0..6u8 {
        print_box(rt, &wiring, node)?;
    }
    for station in layout.roster().stations() {
        print_station(rt, station)?;
    }
    Ok(())
}
