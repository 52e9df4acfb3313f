// Trees that were announced.
ghost use Rattle.std.specs.Prelude.{◌≡◌, ◌≤◌, [], IfOk, Some, vec_len, vec_capacity};
ghost use Rattle.std.specs.Fmt.{decimal};
ghost use Rattle.scenario.specs.Forest.{refusal_number, Announced, latest_with};
ghost use Rattle.scenario.specs.declared.forest.Refusal.TheVariants.{NotATree};

use crate::tree_over;
use sets::BridgeId;
use std::alloc::{AllocError, Global};
use std::error::Error;
use std::fmt;
use trees::{Tree, TreeFault, TreeId};
use wiring::boxes::Wiring;

/// Why a tree is not announced or adopted.
#[derive(Clone, Copy, PartialEq, Eq, Debug)]
pub enum Refusal {
    // There is no such bridge, or it is off.
    NoBridge,
    // No tree with that number was announced.
    UnknownTree,
    // The boxes stand above one another in a ring.
    NotATree(TreeFault),
    // There is no room for another tree.
    NoRoom,
}

impl Refusal {
    /// The number that users see.
    // Stays: one variant carries a value, so no discriminant says the number.
    pub fn number(self) -> u8
        ensures { result ≡ refusal_number self }
    {
        match self {
            Refusal::NoBridge => 2,
            Refusal::UnknownTree => 4,
            Refusal::NotATree(_) => 5,
            Refusal::NoRoom => 7,
        }
    }
}

impl fmt::Display for Refusal {
    ghost output = { λ refusal. Some (decimal (refusal_number refusal)) };

    fn fmt<W: fmt::Write>(&self, f: &mut fmt::Formatter<W>) -> fmt::Result {
        write!(f, "{}", self.number())
    }
}

impl Error for Refusal {}

impl From<TreeFault> for Refusal {
    ghost from_gives = { λ fault refusal. refusal ≡ NotATree fault };

    fn from(fault: TreeFault) -> Refusal {
        Refusal::NotATree(fault)
    }
}

/// The trees that were announced, the latest last.
#[derive(Drop)]
pub struct Forest {
    // Stays: the order counts, since a later tree goes before an earlier one with its number; a map would lose it.
    list: Vec<Tree>,
    ghost room: { (vec_len list ≤ 32) × (32 ≤ vec_capacity list) },
}

impl Forest {
    /// No tree yet, with room for 32.
    pub fn new(heap: Global) -> Result<Forest, AllocError>
        ensures { IfOk result (λ x. x.list.items ≡ []) }
    {
        let list = Vec::with_capacity(heap, 32)?;
        Ok(Forest { list })
    }

    /// The trees, the latest last.
    pub fn trees(&self) -> &[Tree]
        ensures { result.now ≡ self.now.list.items }
    {
        self.list.as_slice()
    }

    /// The latest tree that was announced with a sequence number.
    pub fn find(&self, seq: u32) -> Option<Tree>
        ensures { result ≡ latest_with seq self.now.list.items }
    {
        self.list
            .iter()
            .rev()
            .find(|tree| tree.id().seq() == seq)
            .copied()
    }

    /// A box announces a tree; where there is none, nothing changes.
    pub fn announce(
        &mut self,
        wiring: &Wiring,
        seq: u32,
        node: u8,
        parents: &[u8; 6],
    ) -> Result<Tree, Refusal>
        ensures { Announced wiring.now.nodes seq node parents.now self.old.list.items result self.new.list.items }
    {
        if self.list.len() >= 32 {
            return Err(Refusal::NoRoom);
        }
        let announcer = BridgeId::new(wiring.number(node)).ok_or(Refusal::NoBridge)?;
        // Stays: it is below 32; `try_from` would add a refusal that never comes.
        let nonce = self.list.len() as u32;
        let id = TreeId::new(seq, announcer, nonce).ok_or(Refusal::NoRoom)?;
        let tree = tree_over(wiring, id, parents)?;
        self.list.push_reserved(tree);
        Ok(tree)
    }
}
