//! The width of an access to a port.

ghost use Rattle.std.specs.Prelude.{◌≡◌};
ghost use Rattle.calls_ports.specs.Cards.{bytes_of};

/// How many bytes an access moves.
#[derive(Clone, Copy, Debug, PartialEq, Eq)]
pub enum Width {
    /// One.
    Byte,
    /// Two.
    Word,
}

impl Width {
    /// How many these are.
    pub(crate) fn bytes(self) -> usize
        ensures { result ≡ bytes_of self }
    {
        match self {
            Width::Byte => 1,
            Width::Word => 2,
        }
    }
}
