// What happens to a bridge but for frames: each step takes the bridge and gives it back.
ghost use Rattle.std.specs.Prelude.{◌≡◌, IfOk};
ghost use Rattle.trees.specs.Meanings.{meaning};
ghost use Rattle.trees.specs.Ids.{id_number};
ghost use Rattle.forwarding.specs.State.{no_slot, is_tree, started, adopted, aged_state, crashed};
ghost use Rattle.forwarding.specs.Replies.{relinked, link_answer};
ghost use Rattle.forwarding.specs.Holding.{slot_of, state_of};

use crate::held::Held;
use crate::{Bridge, Fault};
use fdb::Table;
use ports::{Chassis, Link, Port, PortId};
use sets::BridgeId;
use std::alloc::{AllocError, Global};
use trees::{Tree, TreeId};

impl Held {
    // A place for a tree, with none in it.
    fn empty(heap: Global) -> Result<Held, AllocError>
        ensures { IfOk result (λ h. slot_of h ≡ no_slot) }
    {
        Ok(Held {
            tree: None,
            table: Table::new(heap)?,
        })
    }

    // Is its tree that with the number?
    pub(crate) fn has_number(&self, id: TreeId) -> bool
        ensures { result ≡ is_tree (id_number id) (slot_of self.now).tree }
    {
        self.tree.as_ref().is_some_and(|tree| tree.id() == id)
    }
}

impl Bridge {
    // A bridge with nothing but its number and its ports; an error if there is not the memory for what it may learn.
    pub fn new(heap: Global, id: BridgeId, ports: [Port; 16]) -> Result<Bridge, AllocError>
        ensures { IfOk result (λ b. state_of b ≡ started id.value ports) }
    {
        let newest = Held::empty(heap)?;
        let older = Held::empty(heap)?;
        Ok(Bridge {
            chassis: Chassis { id, ports },
            newest,
            older,
        })
    }

    // Adopts a tree as its newest.
    pub fn adopt(self, tree: Tree) -> Bridge
        ensures { state_of result ≡ adopted (meaning tree) (state_of self) }
    {
        if self.newest.has_number(tree.id()) {
            return self;
        }
        let Bridge {
            chassis,
            newest,
            older,
        } = self;
        let Held { tree: _, mut table } = older;
        table.clear();
        Bridge {
            chassis,
            newest: Held {
                tree: Some(tree),
                table,
            },
            older: newest,
        }
    }

    // What was not heard of for long is forgotten, along both trees.
    pub fn age(mut self, tick: u64) -> Bridge
        ensures { state_of result ≡ aged_state tick (state_of self) }
    {
        self.newest.table.forget(tick);
        self.older.table.forget(tick);
        self
    }

    // Falls, and starts again with nothing but its number and its ports.
    pub fn crash(mut self) -> Bridge
        ensures { state_of result ≡ crashed (state_of self) }
    {
        self.newest.table.clear();
        self.older.table.clear();
        self.newest.tree = None;
        self.older.tree = None;
        self
    }

    // Comes to believe that a link by a port is up or down, or gone; a port to stations is refused.
    pub fn set_link(mut self, port: u8, link: Option<Link>) -> (Bridge, Result<(), Fault>)
        ensures after { state_of result.0 ≡ relinked port link (state_of self) }
        ensures answer { result.1 ≡ link_answer port (state_of self) }
    {
        let answer = self.relink(port, link);
        (self, answer)
    }

    // The same in place, where refusals go by `?`.
    fn relink(&mut self, port: u8, link: Option<Link>) -> Result<(), Fault>
        ensures after { state_of self.new ≡ relinked port link (state_of self.old) }
        ensures answer { result ≡ link_answer port (state_of self.old) }
    {
        let port = PortId::new(port).ok_or(Fault::NoSuchPort)?;
        let place = &mut self.chassis.ports[port.index()];
        if matches!(place, Port::Access(_)) {
            return Err(Fault::NotATrunk);
        }
        *place = link.map_or(Port::Unused, Port::Trunk);
        Ok(())
    }
}
