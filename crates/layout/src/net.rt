// The net as far as a script has described it.
ghost use Rattle.std.specs.Prelude.{◌≡◌, [], replicate, IfOk};
ghost use Rattle.script.specs.Grammar.{meant, aimed};
ghost use Rattle.wiring.specs.Rules.{Did};
ghost use Rattle.layout.specs.Net.{state_of, empty_state, applied, want_ends};

use crate::roster::Roster;
use script::faults::Expected;
use script::lines::{Command, Target};
use std::alloc::{AllocError, Global};
use wiring::boxes::Wiring;
use wiring::rules::{want_box, want_there};

/// Boxes, cables and stations.
#[derive(Drop)]
pub struct Layout {
    wiring: Wiring,
    roster: Roster,
}

impl Layout {
    /// A net with nothing in it.
    pub fn new(heap: Global) -> Result<Layout, AllocError>
        ensures { IfOk result (λ l. state_of l ≡ empty_state) }
    {
        let roster = Roster::new(heap)?;
        Ok(Layout {
            wiring: Wiring::new(),
            roster,
        })
    }

    /// The boxes and cables.
    pub fn wiring(&self) -> Wiring
        ensures { result ≡ self.now.wiring }
    {
        self.wiring
    }

    /// The stations.
    pub fn roster(&self) -> &Roster
        ensures { result.now ≡ self.now.roster }
    {
        &self.roster
    }

    /// Refuses a text from or to a station that isn't there.
    fn want_ends(&self, from: &[u8], to: Target<'_>) -> Result<(), Expected>
        ensures { result ≡ want_ends (state_of self.now) from.now (aimed to.entry) }
    {
        self.roster.want(from)?;
        match to {
            Target::All => Ok(()),
            Target::Station(name) => self.roster.want(name),
        }
    }

    /// Does what a command says, or refuses it and changes nothing.
    pub fn apply(&mut self, command: Command<'_>) -> Result<(), Expected>
        ensures { Did (applied (state_of self.old) (meant command.entry)) result (state_of self.old) (state_of self.new) }
    {
        // Stays: each kind of command does something of its own, which a closure for each would say no plainer.
        match command {
            Command::Bridge {
                node,
                ports,
                number,
            } => self.wiring.add_box(node, ports, number),
            Command::Access { port, vlan } => self.wiring.set_access(port, vlan),
            Command::Cable { one, other } => self.wiring.plug(one, other),
            Command::Pull { one, other } => self.wiring.pull(one, other),
            Command::Station {
                name,
                address,
                port,
            } => self.roster.add(&self.wiring, name, address, port),
            Command::Move { name, port } => self.roster.relocate(&self.wiring, name, port),
            Command::Send { from, to, .. } => self.want_ends(from, to),
            Command::Lose { port, .. } => want_there(self.wiring.port(port)),
            Command::Fall { node } => self.wiring.fall(node),
            Command::Start { node } => self.wiring.start(node),
            Command::Tree { node, .. } | Command::Adopt { node, .. } => {
                want_box(self.wiring.power(node))
            }
            Command::Blank | Command::Tick { .. } | Command::Rest => Ok(()),
        }
    }
}
