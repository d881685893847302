//! Numbers that are drawn from a seed.
ghost use Rattle.std.specs.Prelude.{◌≡◌, ◌<◌};
ghost use Rattle.lucy_net.specs.Draws.{generator_of, drawn};

use rand_core::utils::NextWord;
use rand_pcg::Lcg64Xsh32;
use std::marker::Model;

// The stream of the generator, whatever the seed is.
const STREAM: u64 = 54;

/// A generator of numbers that its seed determines. Contracts see the state and the increment of
/// the generator.
#[derive(Drop)]
pub struct Chaos {
    generator: Lcg64Xsh32,
}

impl Model for Chaos {
    ghost use Rattle.rand_pcg.specs.Lcg.{Lcg};

    ghost Value = { Lcg };

    ghost view = { λ c. c.generator };
}

impl Chaos {
    /// The generator of a seed, before its first word.
    pub fn new(seed: u64) -> Chaos
        ensures { result ≡ generator_of seed }
    {
        Chaos {
            generator: Lcg64Xsh32::new(seed, STREAM),
        }
    }

    /// The next word of 32 bits, modulo `below`.
    pub fn draw(&mut self, below: u32) -> u32
        requires { 0 < below }
        ensures value { (result, self.new) ≡ drawn below self.old }
        ensures bound { result < below }
    {
        self.generator.next_word() % below
    }
}
