// All that the home keeps.
ghost use Rattle.std.specs.Prelude.{◌≡◌, ℕ, List};
ghost use Rattle.model.specs.Home.{home_after};
ghost use Rattle.home_node.specs.Tables.{state_of};

use crate::node::state::State;

mod hear;
mod receive;
mod state;

// Nothing but what came in since the home was fresh led to this state.
#[derive(Drop)]
pub struct Home {
    state: State,
    ghost reached: { ∥ ((seen : List (List ℕ)) × (state_of state ≡ home_after seen)) ∥₁ },
}
