// Reading bytes one after the other.
ghost use Rattle.std.specs.Prelude.{◌≡◌, ℕ, ◌+◌, ◌^◌, ◌<◌, length, take, drop, slice_index};
ghost use Rattle.wire.specs.Bytes.{four, six, three, two};
ghost use Rattle.wire.specs.Readers.{Reads, ReadsNamed, spent};
ghost use Rattle.wire.specs.TreeIds.{TreeIdSays};

use crate::{Count, Fault};
use sets::BridgeId;
use trees::TreeId;

// A place in lent bytes, from which the next are read.
// Stays: frames are read at places, and clauses name `pos`; of the rest of the slice alone neither could be said.
#[derive(Drop)]
pub struct Reader<'a> {
    bytes: &'a [u8],
    pos: usize,
}

impl<'a> Reader<'a> {
    // Reads from the given place on.
    pub fn at(bytes: &'a [u8], pos: usize) -> Reader<'a>
        ensures { (result.bytes.now ≡ bytes.now) × (result.pos ≡ pos) }
    {
        Reader { bytes, pos }
    }

    // The next bytes, lent on.
    pub fn part(&mut self, count: usize) -> Result<&'a [u8], Fault>
        ensures { Reads count self.old self.new self.old result (λ a. (length a.now ≡ count) × (a.now ≡ take count (drop self.old.pos self.old.bytes.now))) }
    {
        let (_, rest) = self
            .bytes
            .split_at_checked(self.pos)
            .ok_or(Fault::Malformed)?;
        let (part, _) = rest.split_at_checked(count).ok_or(Fault::Malformed)?;
        self.pos += count;
        Ok(part)
    }

    // The next N bytes as they stand.
    pub fn array<const N: usize>(&mut self) -> Result<[u8; N], Fault>
        ensures { Reads N self.old self.new self.old result (λ a. a ≡ take N (drop self.old.pos self.old.bytes.now)) }
    {
        let mut array = [0; N];
        array.copy_from_slice(self.part(N)?);
        Ok(array)
    }

    // The N bytes of a number: where there are fewer, none are left.
    fn digits<const N: usize>(&mut self) -> Result<[u8; N], Fault>
        ensures { Reads N self.old self.new (spent self.old) result (λ a. a ≡ take N (drop self.old.pos self.old.bytes.now)) }
    {
        let digits = self.array();
        if digits.is_err() {
            self.pos = self.pos.max(self.bytes.len());
        }
        digits
    }

    // The next byte.
    pub fn byte(&mut self) -> Result<u8, Fault>
        ensures { Reads 1 self.old self.new self.old result (λ b. b ≡ slice_index self.old.bytes.now self.old.pos) }
    {
        let byte = *self.bytes.get(self.pos).ok_or(Fault::Malformed)?;
        self.pos += 1;
        Ok(byte)
    }

    // The number in the next two bytes.
    pub fn two(&mut self) -> Result<u16, Fault>
        ensures { Reads 2 self.old self.new (spent self.old) result (λ n. n ≡ two self.old.bytes.now self.old.pos) }
    {
        Ok(u16::from_be_bytes(self.digits()?))
    }

    // The number in the next three bytes.
    pub fn three(&mut self) -> Result<u32, Fault>
        ensures { Reads 3 self.old self.new (spent self.old) result (λ n. (n ≡ three self.old.bytes.now self.old.pos) × (n < 2 ^ 24)) }
    {
        let [a, b, c] = self.digits::<3>()?;
        Ok(u32::from_be_bytes([0, a, b, c]))
    }

    // The number in the next four bytes.
    pub fn four(&mut self) -> Result<u32, Fault>
        ensures { Reads 4 self.old self.new (spent self.old) result (λ n. n ≡ four self.old.bytes.now self.old.pos) }
    {
        Ok(u32::from_be_bytes(self.digits()?))
    }

    // The number in the next six bytes.
    pub fn six(&mut self) -> Result<u64, Fault>
        ensures { Reads 6 self.old self.new (spent self.old) result (λ n. (n ≡ six self.old.bytes.now self.old.pos) × (n < 2 ^ 48)) }
    {
        let [a, b, c, d, e, f] = self.digits::<6>()?;
        Ok(u64::from_be_bytes([0, 0, a, b, c, d, e, f]))
    }

    // The count of a link state in the next six bytes.
    pub fn count(&mut self) -> Result<Count, Fault>
        ensures { Reads 6 self.old self.new (spent self.old) result (λ n. n.value ≡ six self.old.bytes.now self.old.pos) }
    {
        let n = self.six()?;
        Count::new(n).ok_or(Fault::Malformed)
    }

    // The number of a bridge in the next byte.
    pub fn bridge(&mut self) -> Result<BridgeId, Fault>
        ensures { ReadsNamed 1 (slice_index self.old.bytes.now self.old.pos) self.old self.new self.old result (λ b. b.value ≡ slice_index self.old.bytes.now self.old.pos) }
    {
        let value = self.byte()?;
        BridgeId::new(value).ok_or(Fault::NotThere)
    }

    // The number of a tree in the next eight bytes.
    pub fn tree_id(&mut self) -> Result<TreeId, Fault>
        ensures { ReadsNamed 8 (slice_index self.old.bytes.now (self.old.pos + 4)) self.old self.new (spent self.old) result (TreeIdSays self.old.bytes.now self.old.pos) }
    {
        let seq = self.four()?;
        let announcer = self.byte()?;
        let nonce = self.three()?;
        let announcer = BridgeId::new(announcer).ok_or(Fault::NotThere)?;
        TreeId::new(seq, announcer, nonce).ok_or(Fault::NotThere)
    }
}
