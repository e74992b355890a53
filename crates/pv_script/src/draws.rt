// Numbers as if by chance, which are the same ones from the same start.
ghost use Rattle.std.specs.Prelude.{◌≡◌, ◌<◌};
ghost use Rattle.pv_script.specs.Generated.{drawn, next};

/// A generator of numbers.
#[derive(Drop)]
pub struct Draws {
    /// What the next number is made from.
    pub state: u32,
}

impl Draws {
    /// Another number, which is less than `below`.
    #[tactic(auto, unfolding(crate::specs::Generated::next, crate::specs::Generated::drawn))]
    pub fn draw(&mut self, below: u32) -> u32
        requires { 0 < below }
        ensures number { result ≡ drawn below self.old.state }
        ensures within { result < below }
        ensures state { self.new.state ≡ next self.old.state }
    {
        let next = (u64::from(self.state) * 1_103_515_245 + 12_345) % 2_147_483_648;
        self.state = next as u32;
        self.state / 65_536 % below
    }
}
