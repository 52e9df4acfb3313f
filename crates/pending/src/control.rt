// The kinds of control messages.
use crate::{LinkAck, TreeAck};
use sets::BridgeId;

// A message that is to be sent. A link state or a tree is named by its bridge alone: what it says is read from the
// database as it is sent, so that it is always the newest.
#[derive(Clone, Copy, PartialEq, Eq, Debug)]
pub enum Control {
    Hello,
    AckLinkState(LinkAck),
    AckTree(TreeAck),
    LinkState(BridgeId),
    Tree(BridgeId),
}
