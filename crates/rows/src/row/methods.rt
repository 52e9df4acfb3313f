ghost use Rattle.std.specs.Prelude.{◌≡◌, ◌+◌, ◌≤◌, ◌%◌, true, false, [], ◌∷◌, ◌++◌, length, drop, is_some, is_ok, IfSome, IfOk, IfErr, MatchOption, nat_lt};
ghost use Rattle.std.specs.Borrow.{sem, follows_so};
ghost use Rattle.std.specs.Option.{ghost_name_of as name_of};
ghost use Rattle.rows.specs.Refused.{why};
ghost use Rattle.rows.specs.Slot.{frame};
ghost use Rattle.rows.specs.Row.{waiting};
ghost use Rattle.rows.specs.Events.{Comes, Leaves, Clears, takes, after};
ghost use Rattle.rows.specs.contracts.row.Row.{the_row};
ghost use Rattle.rows.specs.contracts.slot.Slot.{the_row as slot_row};

use super::{ROW, Row};
use crate::refused::Refused;
use crate::slot::{LONGEST_FRAME, Slot};
use std::alloc::{AllocError, Global};

impl Row {
    // A row with no frames, and room for 16.
    pub fn new(heap: Global) -> Result<Row, AllocError>
        ensures { IfOk result (λ q. waiting q ≡ []) }
    {
        let mut slots = Vec::new(heap);
        slots.resize_with(ROW, Slot::new)?;
        Ok(Row {
            slots,
            head: 0,
            used: 0,
        })
    }

    // Lends the place of the next frame, empty, and counts it as waiting: what is written there is the last frame of the
    // row. `None`, and nothing changed, if the row is full.
    pub fn push(&mut self) -> Option<&mut Slot>
        ensures* lent { sem 𝓛 (follows_so the_row slot_row self.entry.ghost_name (name_of result) (λ w n. (is_some result ≡ true → waiting n ≡ waiting self.old ++ frame w ∷ [])) (λ n. (is_some result ≡ false → n ≡ self.old))) }
        ensures lent_facts { (is_some result ≡ nat_lt (length (waiting self.old)) 16) × IfSome result (λ x. frame x.now ≡ []) }
    {
        if self.used >= ROW {
            return None;
        }
        let place = (self.head + self.used) % ROW;
        self.used += 1;
        self.slots[place].clear();
        self.slots.get_mut(place)
    }

    // Puts a frame behind those that wait. An error if it is too long or there is no room; then nothing changed.
    pub fn enqueue(&mut self, bytes: &[u8]) -> Result<(), Refused>
        ensures taken { is_ok result ≡ takes bytes.now (waiting self.old) }
        ensures why { IfErr result (λ e. e ≡ why bytes.now) }
        ensures after { waiting self.new ≡ after (Comes bytes.now) (waiting self.old) }
    {
        if bytes.len() > LONGEST_FRAME {
            return Err(Refused::TooLong);
        }
        let slot = self.push().ok_or(Refused::NoRoom)?;
        slot.append(bytes).unwrap();
        Ok(())
    }

    // The frame that is to be sent next.
    pub fn front(&self) -> Option<&[u8]>
        ensures first { MatchOption result (waiting self.now ≡ []) (λ f. waiting self.now ≡ f.now ∷ drop 1 (waiting self.now)) }
        ensures within { (length (waiting self.now) ≤ 16) × IfSome result (λ f. length f.now ≤ 1529) }
    {
        if self.used == 0 {
            return None;
        }
        Some(self.slots[self.head].as_bytes())
    }

    // Lets go of the frame that was to be sent next; false if there was none.
    // Stays: as `HashSet::remove` it answers whether there was one; an `Option<()>` would say no more, and the frame is read
    // before by `front`, in place.
    pub fn pop(&mut self) -> bool
        ensures within { length (waiting self.old) ≤ 16 }
        ensures some { result ≡ nat_lt 0 (length (waiting self.old)) }
        ensures after { waiting self.new ≡ after Leaves (waiting self.old) }
    {
        if self.used == 0 {
            return false;
        }
        self.head = (self.head + 1) % ROW;
        self.used -= 1;
        true
    }

    // Drops all frames, as a hold-down asks.
    pub fn clear(&mut self)
        ensures { waiting self.new ≡ after Clears (waiting self.old) }
    {
        self.used = 0;
    }
}
