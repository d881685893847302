//! What becomes of a packet on its way.
ghost use Rattle.std.specs.Prelude.{◌≡◌, ◌<◌};
ghost use Rattle.lucy_net.specs.Fates.{fate_of, fate_drawn};

use crate::draws::Chaos;

/// What becomes of a packet that is sent.
#[derive(Clone, Copy, PartialEq, Eq, Debug)]
pub enum Fate {
    Lost,
    PostedTwice,
    PostedOnce,
}

/// How often packets are lost and doubled: of `of` equally likely numbers, `lose` lose a packet and
/// `twice` post it twice. `of` is at least 1, and `lose` and `twice` together are at most `of`.
#[derive(Clone, Copy, PartialEq, Eq, Debug)]
pub struct Weather {
    pub lose: u32,
    pub twice: u32,
    pub of: u32,
}

impl Weather {
    /// What a drawn number says. Draw it below `of`.
    pub fn fate(&self, drawn: u32) -> Fate
        ensures { result ≡ fate_of self.now drawn }
    {
        if drawn < self.lose {
            Fate::Lost
        } else if drawn - self.lose < self.twice {
            Fate::PostedTwice
        } else {
            Fate::PostedOnce
        }
    }

    /// Draws what becomes of the next packet.
    pub fn next_fate(&self, chaos: &mut Chaos) -> Fate
        requires { 0 < self.now.of }
        ensures { (result, chaos.new) ≡ fate_drawn self.now chaos.old }
    {
        self.fate(chaos.draw(self.of))
    }
}
