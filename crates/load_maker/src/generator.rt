//! The generator of numbers.
ghost use Rattle.std.specs.Prelude.{◌≡◌};
ghost use Rattle.load_maker.specs.Sessions.{draw_of, first_state, next_state};

/// The state in which a log begins.
const FIRST_STATE: u16 = 1;

/// Draws numbers from 0 to 3. They depend only on its state.
#[derive(Drop)]
pub struct Generator {
    state: u16,
}

impl Generator {
    /// A generator in the state in which a log begins.
    pub fn new() -> Generator
        ensures { result.state ≡ first_state }
    {
        Generator { state: FIRST_STATE }
    }

    /// Draws a number from 0 to 3.
    #[tactic(auto, unfolding(crate::specs::Sessions::next_state, crate::specs::Sessions::draw_of))]
    pub fn draw(&mut self) -> u16
        ensures state { self.new.state ≡ next_state self.old.state }
        ensures drawn { result ≡ draw_of (self.new).state }
    {
        let next = (u32::from(self.state) * 25173 + 13849) % 65536;
        self.state = next as u16;
        self.state / 4096 % 4
    }
}
