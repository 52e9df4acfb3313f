// The promise of the whole net: a crate of statements, each proved on a function whose `ensures` names it.
#![tactic(auto)]

mod given;
mod promises;
mod witness;
mod worked;

ghost use Rattle.std.specs.Prelude.{◌≡◌};

pub use given::main_follows;
pub use promises::{
    first_promise_stands, frames_arrive_once, frames_have_one_sender, learnt_is_right,
    no_bridge_hands_over_twice, no_copy_comes_round, rest_can_come, vlans_are_kept_apart,
    who_stays_gets_it_once, whole_net_is_guaranteed,
};
pub use witness::premises_can_hold;
pub use worked::{refusals_change_nothing, worked_cases_hold};

// The most stations that one bridge learns along one tree.
pub fn most_learned() -> u16
    ensures { result ≡ 4096 }
{
    4096
}
