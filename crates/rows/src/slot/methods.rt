ghost use Rattle.std.specs.Prelude.{◌≡◌, ◌+◌, ◌≤◌, [], ◌++◌, length, is_ok, if◌then◌else◌, nat_le};
ghost use Rattle.rows.specs.Slot.{frame};

use super::{LONGEST_FRAME, Slot};
use crate::refused::TooLong;

impl Slot {
    // A slot that holds the empty frame.
    pub fn new() -> Slot
        ensures { frame result ≡ [] }
    {
        Slot {
            bytes: [0; LONGEST_FRAME],
            len: 0,
        }
    }

    // The frame, as it goes out.
    pub fn as_bytes(&self) -> &[u8]
        ensures bytes { result.now ≡ frame self.now }
        ensures within { length (frame self.now) ≤ 1529 }
    {
        &self.bytes[0..self.len]
    }

    // Begins the frame anew.
    pub fn clear(&mut self)
        ensures { frame self.new ≡ [] }
    {
        self.len = 0;
    }

    // Writes the next part of the frame. An error if the frame would be too long; then nothing is written.
    pub fn append(&mut self, part: &[u8]) -> Result<(), TooLong>
        ensures taken { is_ok result ≡ nat_le (length (frame self.old) + length part.now) 1529 }
        ensures after { frame self.new ≡ (if is_ok result then frame self.old ++ part.now else frame self.old) }
    {
        if part.len() > LONGEST_FRAME - self.len {
            return Err(TooLong);
        }
        let end = self.len + part.len();
        self.bytes[self.len..end].copy_from_slice(part);
        self.len = end;
        Ok(())
    }
}
