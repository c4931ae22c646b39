#![tactic(auto)]
// Marsaglia's xorshift of 32 bits.
ghost use Rattle.std.specs.Prelude.{◌≡◌};
ghost use Rattle.xorshift.specs.Xorshift.{step as step_of};

// The next state: shifts 13 left, 17 right, 5 left; `<<` cuts to 32 bits.
pub fn step(state: u32) -> u32
    ensures { result ≡ step_of state }
{
    let a = state ^ (state << 13);
    let b = a ^ (a >> 17);
    b ^ (b << 5)
}
