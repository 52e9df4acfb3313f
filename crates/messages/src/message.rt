// Any message between bridges.
ghost use Rattle.messages.specs.Messages.{DecodesMessage};

use crate::tree::decode_tree;
use crate::{Ack, Hello, LinkState};
use frames::Header;
use trees::Tree;
use wire::{Fault, Kind};

// What comes by a trunk port, by its kind. Of a frame it has the header, and `inner_frame` lends on the rest.
#[derive(Drop)]
pub enum Message {
    Frame(Header),
    Hello(Hello),
    LinkState(LinkState),
    Tree(Tree),
    Ack(Ack),
}

impl Message {
    // What the bytes say: every string of bytes is one message or one fault.
    pub fn decode(bytes: &[u8]) -> Result<Message, Fault>
        ensures { DecodesMessage bytes.now result }
    {
        match Kind::of(bytes)? {
            Kind::Frame => Header::decode(bytes).map(Message::Frame),
            Kind::Hello => Hello::decode(bytes).map(Message::Hello),
            Kind::LinkState => LinkState::decode(bytes).map(Message::LinkState),
            Kind::Tree => decode_tree(bytes).map(Message::Tree),
            Kind::Ack => Ack::decode(bytes).map(Message::Ack),
            Kind::Settings => Err(Fault::Malformed),
        }
    }
}
