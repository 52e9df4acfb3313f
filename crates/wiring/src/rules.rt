// What a script may do to boxes, ports and cables, and what it may not.
ghost use Rattle.std.specs.Prelude.{◌≡◌};
ghost use Rattle.wiring.specs.Boxes.{power_at, port_at};
ghost use Rattle.wiring.specs.Rules.{Did, want_there, want_box, want_free, want_access, box_added, access_set, cabled, pulled, turned, fallen, started};

use crate::boxes::{BOXES, Port, Power, Wiring};
use scan::parts::PortRef;
use script::faults::Expected;

/// Refuses a port that isn't there.
pub fn want_there(port: Port) -> Result<(), Expected>
    ensures { result ≡ want_there port }
{
    match port {
        Port::Absent => Err(Expected::PortThere),
        _ => Ok(()),
    }
}

/// Refuses a box that isn't there.
pub fn want_box(power: Power) -> Result<(), Expected>
    ensures { result ≡ want_box power }
{
    match power {
        Power::Absent => Err(Expected::BoxThere),
        Power::On | Power::Off => Ok(()),
    }
}

/// Refuses a port that is in use.
fn want_free(port: Port) -> Result<(), Expected>
    ensures { result ≡ want_free port }
{
    match port {
        Port::Absent => Err(Expected::PortThere),
        Port::Free => Ok(()),
        _ => Err(Expected::FreePort),
    }
}

/// Refuses a port where no station can be.
pub fn want_access(port: Port) -> Result<(), Expected>
    ensures { result ≡ want_access port }
{
    match port {
        Port::Absent => Err(Expected::PortThere),
        Port::Access(_) => Ok(()),
        _ => Err(Expected::AccessPort),
    }
}

impl Wiring {
    /// Adds a box that isn't there yet.
    pub fn add_box(&mut self, node: u8, ports: u8, number: u8) -> Result<(), Expected>
        ensures { Did (box_added self.old.nodes node ports number) result self.old.nodes self.new.nodes }
    {
        if usize::from(node) >= BOXES {
            return Err(Expected::BoxNumber);
        }
        if self.power(node) != Power::Absent {
            return Err(Expected::NewBox);
        }
        self.set_box(node, ports, number);
        Ok(())
    }

    /// Makes a free port an access port of a VLAN.
    pub fn set_access(&mut self, at: PortRef, vlan: u16) -> Result<(), Expected>
        ensures { Did (access_set self.old.nodes at vlan) result self.old.nodes self.new.nodes }
    {
        want_free(self.port(at))?;
        self.set_port(at, Port::Access(vlan));
        Ok(())
    }

    /// Plugs a cable in between two free ports.
    pub fn plug(&mut self, one: PortRef, other: PortRef) -> Result<(), Expected>
        ensures { Did (cabled self.old.nodes one other) result self.old.nodes self.new.nodes }
    {
        want_free(self.port(one))?;
        want_free(self.port(other))?;
        if one == other {
            return Err(Expected::FreePort);
        }
        self.set_port(one, Port::Cabled(other));
        self.set_port(other, Port::Cabled(one));
        Ok(())
    }

    /// Pulls the cable between two ports.
    pub fn pull(&mut self, one: PortRef, other: PortRef) -> Result<(), Expected>
        ensures { Did (pulled self.old.nodes one other) result self.old.nodes self.new.nodes }
    {
        want_there(self.port(one))?;
        want_there(self.port(other))?;
        if self.port(one) != Port::Cabled(other) {
            return Err(Expected::CableThere);
        }
        self.set_port(one, Port::Free);
        self.set_port(other, Port::Free);
        Ok(())
    }

    /// Switches a box off.
    pub fn fall(&mut self, node: u8) -> Result<(), Expected>
        ensures { Did (fallen self.old.nodes node) result self.old.nodes self.new.nodes }
    {
        self.switch(node, Power::Off, Expected::BoxOn)
    }

    /// Switches a box on again.
    pub fn start(&mut self, node: u8) -> Result<(), Expected>
        ensures { Did (started self.old.nodes node) result self.old.nodes self.new.nodes }
    {
        self.switch(node, Power::On, Expected::BoxOff)
    }

    /// Switches a box over, and refuses one that stands so already.
    fn switch(&mut self, node: u8, to: Power, already: Expected) -> Result<(), Expected>
        ensures { Did (turned self.old.nodes node to already) result self.old.nodes self.new.nodes }
    {
        let power = self.power(node);
        want_box(power)?;
        if power == to {
            return Err(already);
        }
        self.set_power(node, to);
        Ok(())
    }
}
