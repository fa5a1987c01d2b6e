// A fault, and what is below it.

ghost use Rattle.std.specs.Prelude.{◌≡◌, []};

use cli_host::status::Fault;
use std::alloc::Global;

/// A fault, and what is below its message.
#[derive(Drop)]
pub struct Explained {
    pub fault: Fault,
    pub below: Vec<u8>,
}

impl Explained {
    /// A fault with nothing below.
    pub fn alone(alloc: Global, fault: Fault) -> Explained
        ensures fault { result.fault ≡ fault }
        ensures below { result.below.items ≡ [] }
    {
        Explained {
            fault,
            below: Vec::new(alloc),
        }
    }
}
