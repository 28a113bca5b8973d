//! What is wrong with a line.

ghost use Rattle.std.specs.Prelude.{◌≡◌};
ghost use Rattle.cl_cond.specs.Sections.{number};

/// What is wrong with a line.
#[derive(Clone, Copy)]
pub enum Trouble {
    /// `elif`, `else` or `endif` outside an if-section.
    Outside,
    /// `elif` or `else` after the section's `else`.
    AfterElse,
    /// The if-line of a section without an `endif`.
    Unended,
}

impl Trouble {
    /// The number of its fault.
    pub fn number(self) -> u8
        ensures { result ≡ number self }
    {
        match self {
            Trouble::Outside => 12,
            Trouble::AfterElse => 13,
            Trouble::Unended => 14,
        }
    }
}
