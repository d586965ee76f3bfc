//! The numbers that turns are made of.
ghost use Rattle.std.specs.Prelude.{◌≡◌};
ghost use Rattle.load_script.specs.Numbers.{next_state, number_in, state_at};

/// The state before the first turn.
pub fn first_state(seed: u64) -> u32
    ensures { result ≡ state_at seed 0 }
{
    (seed % 2_147_483_648) as u32
}

/// The state behind a state.
pub fn next_state(state: u32) -> u32
    ensures { result ≡ next_state state }
{
    ((u64::from(state) * 1_103_515_245 + 12_345) % 2_147_483_648) as u32
}

/// The number that a state gives.
pub fn number_in(state: u32) -> u32
    ensures { result ≡ number_in state }
{
    state / 65_536
}
