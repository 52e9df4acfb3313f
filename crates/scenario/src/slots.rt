// What happens to the bridge in a box, if one is there.
ghost use Rattle.std.specs.Prelude.{◌≡◌, MatchOption};
ghost use Rattle.trees.specs.Ids.{id_number};
ghost use Rattle.trees.specs.Meanings.{meaning};
ghost use Rattle.std.specs.Option.{option_map};
ghost use Rattle.forwarding.specs.State.{aged_state, crashed, adopted};
ghost use Rattle.scenario.specs.Slots.{state_in, become, newest_in, StationAt, NeighbourAt};

use crate::Outcome;
use forwarding::{Arrival, Bridge, Fault};
use trees::{Tree, TreeId};

/// A frame comes to the box: what the bridge in it makes of the frame; a box without one drops it.
fn answer<F: FnOnce(Bridge) -> (Bridge, Outcome)>(slot: &mut Option<Bridge>, take_in: F) -> Outcome
    requires { F.IsAlwaysCallable take_in }
    ensures { MatchOption slot.old ((slot.new ≡ None) × (result ≡ Err Fault.NoTree)) (λ a. MatchOption slot.new ⊥ (λ b. F.post take_in a (b, result))) }
{
    let bridge = slot.take().ok_or(Fault::NoTree)?;
    let (bridge, outcome) = take_in(bridge);
    *slot = Some(bridge);
    outcome
}

/// A station's frame comes to the box.
pub(crate) fn from_station(
    slot: &mut Option<Bridge>,
    port: u8,
    from: [u8; 6],
    to: [u8; 6],
    tick: u64,
) -> Outcome
    ensures { StationAt slot.old port from to tick slot.new result }
{
    answer(slot, |bridge| bridge.from_station(port, from, to, tick))
}

/// A neighbour's frame comes to the box.
pub(crate) fn from_neighbour(slot: &mut Option<Bridge>, frame: Arrival, tick: u64) -> Outcome
    ensures { NeighbourAt slot.old frame.by.value frame.to_bridge.value (id_number frame.tree) frame.vlan.value frame.from frame.to tick slot.new result }
{
    answer(slot, |bridge| bridge.from_neighbour(frame, tick))
}

/// The bridge makes a step; a box without one stays so.
pub(crate) fn update<F: FnOnce(Bridge) -> Bridge>(slot: &mut Option<Bridge>, step: F)
    requires { F.IsAlwaysCallable step }
    ensures { MatchOption slot.old (slot.new ≡ None) (λ a. MatchOption slot.new ⊥ (λ b. F.post step a b)) }
{
    *slot = slot.take().map(step);
}

/// The bridge forgets what is old.
pub(crate) fn age(slot: &mut Option<Bridge>, tick: u64)
    ensures { state_in slot.new ≡ become (aged_state tick) (state_in slot.old) }
{
    update(slot, |bridge| bridge.age(tick));
}

/// The bridge falls.
pub(crate) fn crash(slot: &mut Option<Bridge>)
    ensures { state_in slot.new ≡ become crashed (state_in slot.old) }
{
    update(slot, Bridge::crash);
}

/// The bridge adopts a tree.
pub(crate) fn adopt(slot: &mut Option<Bridge>, tree: Tree)
    ensures { state_in slot.new ≡ become (adopted (meaning tree)) (state_in slot.old) }
{
    update(slot, |bridge| bridge.adopt(tree));
}

/// The number of the newest tree of the bridge.
pub(crate) fn newest(slot: &Option<Bridge>) -> Option<TreeId>
    ensures { option_map id_number result ≡ newest_in (state_in slot.now) }
{
    slot.as_ref().and_then(Bridge::newest_tree)
}
