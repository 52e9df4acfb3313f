// Packets that are to be lost, by the port by which they leave.
ghost use Rattle.std.specs.Prelude.{◌≡◌, ◌-◌, ◌<◌, max, replicate, nat_lt};
ghost use Rattle.scenario.specs.Losses.{left_at, with_left};

use scan::parts::PortRef;

/// How many of the next packets that leave by each port are lost.
#[derive(Clone, Copy)]
pub struct Losses {
    left: [[u32; 16]; 6],
}

impl Losses {
    /// Nothing is lost.
    pub fn none() -> Losses
        ensures { result.left ≡ replicate 6 (replicate 16 0) }
    {
        Losses { left: [[0; 16]; 6] }
    }

    /// How many of the next packets that leave by a port are lost.
    pub fn left(&self, at: PortRef) -> u32
        ensures { result ≡ left_at self.now.left at }
    {
        let row = self.left.get(usize::from(at.node));
        let left = row.and_then(|row| row.get(usize::from(at.port)));
        left.copied().unwrap_or(0)
    }

    /// Sets how many are lost at a port.
    fn set(&mut self, at: PortRef, packets: u32)
        ensures { self.new.left ≡ with_left self.old.left at packets }
    {
        // Stays: with `get_mut` a proof knows the array's length and no element.
        if at.node < 6 && at.port < 16 {
            self.left[usize::from(at.node)][usize::from(at.port)] = packets;
        }
    }

    /// The next packets that leave by a port are lost, at least so many.
    pub fn lose(&mut self, at: PortRef, packets: u32)
        ensures { self.new.left ≡ with_left self.old.left at (max (left_at self.old.left at) packets) }
    {
        let most = self.left(at).max(packets);
        self.set(at, most);
    }

    /// A packet leaves by a port: says whether it is lost, and counts it.
    // Stays: it refuses nothing; whether the packet is lost is what is asked for.
    pub fn takes(&mut self, at: PortRef) -> bool
        ensures lost { result ≡ nat_lt 0 (left_at self.old.left at) }
        ensures after { self.new.left ≡ with_left self.old.left at (left_at self.old.left at - 1) }
    {
        let left = self.left(at);
        self.set(at, left.saturating_sub(1));
        0 < left
    }
}
