//! How a statement ends.
ghost use Rattle.std.specs.Prelude.{◌≡◌};
ghost use Rattle.py_interp_simple.specs.Ends.{after_loop, goes_again, is_normal};

use py_answers::StepValue;

/// How a statement ends that raises nothing and that nothing stops.
#[derive(Drop)]
pub enum Flow {
    /// What stands after it is next.
    Normal,
    /// The innermost loop ends.
    Break,
    /// The next turn of the innermost loop is next.
    Continue,
    /// The body ends with this value.
    Return(StepValue),
}

impl Flow {
    /// Whether what stands after is next.
    pub fn is_normal(&self) -> bool
        ensures { result ≡ is_normal self.now }
    {
        matches!(self, Flow::Normal)
    }

    /// Whether a turn of a loop that ends so is followed by the next.
    pub fn goes_again(&self) -> bool
        ensures { result ≡ goes_again self.now }
    {
        matches!(self, Flow::Normal | Flow::Continue)
    }

    /// How a loop ends by a turn that ends so and is not followed by another.
    pub fn after_loop(self) -> Flow
        ensures { result ≡ after_loop self }
    {
        match self {
            Flow::Normal | Flow::Break => Flow::Normal,
            Flow::Continue => Flow::Continue,
            Flow::Return(value) => Flow::Return(value),
        }
    }
}
