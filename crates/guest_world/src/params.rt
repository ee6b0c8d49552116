//! The parameters of an adapter.

ghost use Rattle.std.specs.Prelude.{◌≡◌};

use inf_file::Param;
use std::marker::Model;

/// The parameters of an adapter, in order.
#[derive(Drop)]
pub struct Params {
    items: Vec<Param>,
}

impl Model for Params {
    ghost use Rattle.std.specs.Prelude.{List};
    ghost use Rattle.inf_file.specs.declared.param.Param.{Param};

    ghost Value = { List Param };

    ghost view = { λ p. p.items.items };
}

impl Params {
    /// These parameters.
    pub fn new(items: Vec<Param>) -> Params
        ensures { result ≡ items.items }
    {
        Params { items }
    }

    /// The parameters.
    pub fn as_slice(&self) -> &[Param]
        ensures { result.now ≡ self.now }
    {
        self.items.as_slice()
    }
}
