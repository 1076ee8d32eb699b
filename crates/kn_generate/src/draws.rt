//! The draws of the generator, and the numbers that they give to a credential.
ghost use Rattle.std.specs.Prelude.{◌≡◌, ◌+◌, ◌<◌, ◌≤◌, ◌-◌};
ghost use Rattle.kn_base.specs.declared.limits.TheConstants.{GENERATED_CREDENTIALS};
ghost use Rattle.kn_generate.specs.Generated.{next_state, state_behind, draw_value, numbers_of};

/// The state of the draws.
#[derive(Drop)]
pub(crate) struct Draws {
    pub state: u32,
}

/// The numbers of a credential.
#[derive(Clone, Copy)]
pub struct Numbers {
    /// A later principal, who may act alone.
    pub later: u32,
    /// Three of all principals, of whom two may act.
    pub first: u32,
    pub second: u32,
    pub third: u32,
    /// What the attribute has to pass.
    pub least: u32,
    /// The compliance value that is then given.
    pub value: u32,
}

impl Draws {
    /// One more number, below 32,768.
    fn draw(&mut self) -> u32
        ensures state { self.new.state ≡ next_state self.old.state }
        ensures draw_value { result ≡ draw_value 1 self.old.state }
        ensures small { result < 32768 }
    {
        // The numbers are those of the example of `rand` in ISO C. The state has 31 bits, and a draw leaves out the
        // lowest 16.
        let product = 1103515245 * u64::from(self.state) + 12345;
        self.state = (product % 2147483648) as u32;
        self.state / 65536
    }

    /// The numbers of the credential of principal `i` of `n`, by six draws.
    pub(crate) fn draw_numbers(&mut self, n: u32, i: u32) -> Numbers
        requires not_last { i + 1 < n }
        requires most { n ≤ GENERATED_CREDENTIALS }
        ensures state { self.new.state ≡ state_behind 6 self.old.state }
        ensures numbers { result ≡ numbers_of n i self.old.state }
    {
        Numbers {
            later: i + 1 + self.draw() % (n - 1 - i),
            first: self.draw() % n,
            second: self.draw() % n,
            third: self.draw() % n,
            least: self.draw() % 10,
            value: self.draw() % 4,
        }
    }
}
