use crate::{Ack, Control, Pending, Version};
use sets::{BridgeId, BridgeSet};
use std::test::Fail;

fn bridge(number: u8) -> Result<BridgeId, Fail> {
    BridgeId::new(number).ok_or_else(|| Fail::new("no bridge has this number"))
}

// Whatever the order in which messages come, they leave by kind and bridge, and only the newest acknowledgement does.
#[test]
fn in_order(rt: HostRuntime) -> Result<(), Fail> {
    let mut pending = Pending::new();
    for number in [9u8, 2, 127] {
        pending.add_tree(bridge(number)?);
        pending.add_link_state(bridge(number)?);
    }
    for count in [4u64, 7, 5] {
        pending.add_tree_ack(bridge(3)?, count);
        pending.add_link_ack(
            bridge(8)?,
            Version {
                count,
                incarnation: 1,
            },
        );
    }
    pending.add_hello();
    let leave = [
        Control::Hello,
        Control::AckLinkState(Ack {
            bridge: bridge(8)?,
            version: Version {
                count: 7,
                incarnation: 1,
            },
        }),
        Control::AckTree(Ack {
            bridge: bridge(3)?,
            version: 7,
        }),
        Control::LinkState(bridge(2)?),
        Control::LinkState(bridge(9)?),
        Control::LinkState(bridge(127)?),
        Control::Tree(bridge(2)?),
        Control::Tree(bridge(9)?),
        Control::Tree(bridge(127)?),
    ];
    for message in leave {
        assert!(rt; pending.next() == Some(message));
    }
    assert!(rt; pending.next().is_none());
    Ok(())
}

// Several bridges at once are added to those that wait, of one kind and of the other.
#[test]
fn several_at_once(rt: HostRuntime) -> Result<(), Fail> {
    let mut pending = Pending::new();
    pending.add_link_state(bridge(5)?);
    pending.add_link_states(BridgeSet::only(bridge(127)?).with(bridge(0)?));
    pending.add_trees(BridgeSet::only(bridge(7)?));
    for number in [0u8, 5, 127] {
        assert!(rt; pending.next() == Some(Control::LinkState(bridge(number)?)));
    }
    assert!(rt; pending.next() == Some(Control::Tree(bridge(7)?)));
    assert!(rt; pending.next().is_none());
    Ok(())
}
