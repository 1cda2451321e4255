//! Words that are drawn from a seed.

ghost use Rattle.std.specs.Prelude.{◌≡◌};
ghost use Rattle.kin_gen.specs.Draws as draws;

use rand_core::SeedableRng;
use rand_core::utils::NextWord;
use rand_xoshiro::Xoshiro256PlusPlus;

/// The generator of a seed.
#[tactic(auto, unfolding(crate::specs::Draws::seeded))]
pub(crate) fn generator(seed: u64) -> Xoshiro256PlusPlus
    ensures { result ≡ draws.seeded seed }
{
    Xoshiro256PlusPlus::seed_from_u64(seed)
}

/// The next draw.
pub(crate) fn next(generator: &mut Xoshiro256PlusPlus) -> u64
    ensures word { result ≡ draws.draw generator.old }
    ensures state { generator.new ≡ draws.after generator.old }
{
    generator.next_word()
}
