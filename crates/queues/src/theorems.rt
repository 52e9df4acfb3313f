// What the contracts come to over everything that can happen at a port.
ghost use Rattle.queues.specs.Runs.{PortOrder, Within64, MessagesFirst};

// Frames leave in the order in which they came, at most 64 in a tick, and only while no message waits.
pub fn port_stands() -> u8
    ensures order { PortOrder }
    ensures budget { Within64 }
    ensures first { MessagesFirst }
{
    0
}
