// SPDX-License-Identifier: Apache-2.0
//! The draws of 64 bits from the stream of a layout.
ghost use Rattle.std.specs.Prelude.{◌≡◌, ◌*◌, ◌<◌, ◌^◌};
ghost use Rattle.layout_maker.specs.Draws.{draws_of, skip, generator_of};

use rand_chacha::ChaCha20Rng;
use rand_core::SeedableRng;
use rand_core::utils::NextWord;

/// The generator of the layout with this number, counted from 1.
#[tactic(auto, unfolding(crate::specs::Draws::generator_of))]
pub fn generator(seed: &[u8; 32], number: u64) -> ChaCha20Rng
    requires { 0 < number }
    ensures is { result ≡ generator_of seed.now number }
    ensures start { result.word_pos ≡ 0 }
{
    let mut rng = ChaCha20Rng::from_seed(*seed);
    rng.set_stream(number - 1);
    rng
}

/// The next draw: two words of the stream, the low one first.
#[tactic(auto, unfolding(crate::specs::Draws::draws_of))]
pub fn draw(rng: &mut ChaCha20Rng) -> u64
    requires { rng.old.word_pos < 2 ^ 60 }
    ensures value { result ≡ draws_of rng.old 0 }
    ensures rest { rng.new ≡ skip 1 rng.old }
{
    let low = u64::from(rng.next_word());
    let high = u64::from(rng.next_word());
    (high << 32) | low
}
