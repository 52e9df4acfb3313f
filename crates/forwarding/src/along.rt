// What a bridge does with a frame along a tree that it holds.
ghost use Rattle.std.specs.Prelude.{◌≡◌, if◌then◌else◌};
ghost use Rattle.fdb.specs.Address.{group_address};
ghost use Rattle.fdb.specs.Contents.{number_of};
ghost use Rattle.ports.specs.Flags.{Flags};
ghost use Rattle.ports.specs.Ports.{ports_of};
ghost use Rattle.ports.specs.Places.{came_of, where_from};
ghost use Rattle.forwarding.specs.State.{heard_in, look_in, goes_out};
ghost use Rattle.forwarding.specs.Holding.{slot_of};

use crate::held::Held;
use fdb::Station;
use ports::{Chassis, Inbound, egress_ports};

// A frame that passes through a bridge: how it came in, and from whom to whom it goes.
#[derive(Clone, Copy)]
pub struct Passing {
    pub inbound: Inbound,
    pub from: Station,
    pub to: Station,
}

// Learns whence the sender's frames come, but of a group, and says by which ports the frame goes out.
pub fn forward(held: &mut Held, chassis: &Chassis, frame: Passing, tick: u64) -> [bool; 16]
    ensures after { slot_of held.new ≡ (if group_address frame.from.address then slot_of held.old else heard_in (where_from frame.inbound.ingress) (number_of frame.from) (number_of frame.to) tick (slot_of held.old)) }
    ensures out { Flags result (goes_out (ports_of chassis.now.ports) chassis.now.id.value (slot_of held.new).tree frame.inbound.vlan.value (came_of frame.inbound.ingress) (look_in (slot_of held.new) (number_of frame.to))) }
{
    let Passing { inbound, from, to } = frame;
    held.table.learn(from, inbound.ingress.location(), tick, to);
    let location = held.table.lookup(to);
    // Stays: with `held.tree.as_ref().map_or([false; 16], ..)` the clause `out` stays open unless the closure repeats that of `egress_ports`.
    let Some(tree) = &held.tree else {
        return [false; 16];
    };
    egress_ports(chassis, tree, inbound, location)
}
