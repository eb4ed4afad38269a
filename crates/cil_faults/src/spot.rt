//! Positions in the texts of modules.

ghost use Rattle.std.specs.Prelude.{◌≡◌};
ghost use Rattle.cil_faults.specs.Spots.{spot_at};

/// A position in the modules: the identity of what is written there.
#[derive(Clone, Copy, Debug, PartialEq, Eq)]
pub struct Spot {
    /// The number of the module, counted from 0 in the byte order of the texts.
    pub module: u64,
    /// The number of bytes of the module before the position.
    pub at: u64,
}

impl Spot {
    /// A position by the number of its module and the number of bytes before it.
    pub fn of(module: u64, at: u32) -> Spot
        ensures { result ≡ spot_at «module» at }
    {
        Spot {
            module,
            at: at as u64,
        }
    }
}
