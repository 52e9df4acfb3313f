// The bridges in the boxes.
ghost use Rattle.std.specs.Prelude.{◌≡◌, ℕ, ◌<◌, length, IfOk, OnOk, OnErr, None, slice_index_or};
ghost use Rattle.std.specs.Option.{option_map};
ghost use Rattle.trees.specs.Ids.{id_number};
ghost use Rattle.forwarding.specs.State.{aged_state};
ghost use Rattle.scenario.specs.Boxes.{newest_at, Began, Prepared, PreparedBelow, PartlyPrepared, holds_newest, all_hold};
ghost use Rattle.scenario.specs.Slots.{state_in, become};

use crate::links::relink_slot;
use crate::{is_on, links_of, slots, start_ports};
use forwarding::Bridge;
use sets::BridgeId;
use std::alloc::{AllocError, Global};
use trees::TreeId;
use wiring::boxes::Wiring;

/// A bridge that starts in a box with the settings of its ports; a box that is off has none.
fn started(heap: Global, wiring: &Wiring, node: u8) -> Result<Option<Bridge>, AllocError>
    ensures { IfOk result (λ b. Began wiring.now.nodes node b) }
{
    match BridgeId::new(wiring.number(node)) {
        Some(id) if is_on(wiring, node) => {
            Ok(Some(Bridge::new(heap, id, start_ports(wiring, node))?))
        }
        _ => Ok(None),
    }
}

/// Sees that a box that is on has a bridge, and tells it of its links.
fn prepare(
    slot: &mut Option<Bridge>,
    heap: Global,
    wiring: &Wiring,
    node: u8,
) -> Result<(), AllocError>
    ensures ok { OnOk result (Prepared wiring.now.nodes node slot.old slot.new) }
    ensures err { OnErr result (slot.new ≡ slot.old) }
{
    if slot.is_none() {
        *slot = started(heap, wiring, node)?;
    }
    let links = links_of(wiring, node);
    relink_slot(slot, &links);
    Ok(())
}

/// Sees that each box that is on has a bridge, and tells each of its links.
pub(crate) fn prepare_all(
    bridges: &mut [Option<Bridge>; 6],
    heap: Global,
    wiring: &Wiring,
) -> Result<(), AllocError>
    ensures ok { OnOk result (PreparedBelow wiring.now.nodes 6 bridges.old bridges.new) }
    ensures err { OnErr result (PartlyPrepared wiring.now.nodes bridges.old bridges.new) }
{
    for (node, slot) in bridges.iter_mut().enumerate() {
        prepare(slot, heap, wiring, node as u8)?;
    }
    Ok(())
}

/// Each bridge forgets what is old.
pub(crate) fn age_all(bridges: &mut [Option<Bridge>; 6], tick: u64)
    ensures length { length bridges.new ≡ length bridges.old }
    ensures aged { (n : ℕ) → n < 6 → state_in (slice_index_or bridges.new n None) ≡ become (aged_state tick) (state_in (slice_index_or bridges.old n None)) }
{
    for slot in bridges.iter_mut() {
        slots::age(slot, tick);
    }
}

/// The number of the newest tree of the bridge in a box.
pub(crate) fn newest_in(bridges: &[Option<Bridge>], node: u8) -> Option<TreeId>
    ensures { option_map id_number result ≡ newest_at bridges.now node }
{
    bridges.get(usize::from(node)).and_then(slots::newest)
}

/// Says whether a box is off, or its newest tree is the one with a number.
fn holds(bridges: &[Option<Bridge>], wiring: &Wiring, node: u8, id: TreeId) -> bool
    ensures { result ≡ holds_newest bridges.now wiring.now.nodes (id_number id) node }
{
    !is_on(wiring, node) || newest_in(bridges, node) == Some(id)
}

/// Says whether the newest tree of every box that is on is the one with a number.
pub(crate) fn all_hold(bridges: &[Option<Bridge>], wiring: &Wiring, id: TreeId) -> bool
    ensures { result ≡ all_hold 6 bridges.now wiring.now.nodes (id_number id) }
{
    (0..6u8).all(|node| holds(bridges, wiring, node, id))
}
