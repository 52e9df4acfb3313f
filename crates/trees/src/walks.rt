// Walks along a tree: why a frame cannot go round.
ghost use Rattle.trees.specs.Walks.{Simple};

// The theorem on which the whole net rests: a walk that never goes straight back is nowhere twice.
#[tactic(auto, using(crate::proofs::Simple::simple))]
pub fn walks_are_simple() -> u8
    ensures { Simple }
{
    0
}
