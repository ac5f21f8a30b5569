//! Networks with don't cares.
ghost use Rattle.std.specs.Prelude.{◌≡◌};

use crate::net::Net;
use std::marker::Model;

/// What a network with external don't cares specifies (`.exdc` of the BLIF manual). Where the network `free` shows 1 at an output, that
/// output is free. Elsewhere, and where there is no such network, an output has the value that `net` shows. What is asked of it is its
/// invariant, `IsValidSource`: `free` has the model, the inputs and the names of the outputs of `net`, in order.
#[derive(Drop)]
pub struct Source {
    pub net: Net,
    pub free: Option<Net>,
}

impl Model for Source {
    ghost use Rattle.ae_net.specs.NetSource.{NetSource};

    ghost Value = { NetSource };

    ghost use Rattle.ae_net.specs.NetSource.{IsValidSource};

    ghost view = { λ s. record { net = s.net; free = s.free } };

    ghost invariant = { λ s. IsValidSource (record { net = s.net; free = s.free }) };
}

impl Source {
    ghost use Rattle.ae_net.specs.NetSource.{IsValidSource};

    /// The network.
    pub fn net(&self) -> &Net
        ensures net { result.now ≡ self.now.net }
        ensures valid { IsValidSource self.now }
    {
        &self.net
    }
}
