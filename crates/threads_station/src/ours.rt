// Scans of a station's own program.

ghost use Rattle.std.specs.Prelude.{◌≡◌};

use crate::actor::Naming;
use scan_task::Scanned;
use std::marker::{Model, PhantomData};

/// A scan that was run to its end, of the program of its station, which its type keeps: a commit of it compares no programs.
/// Contracts see it as the scan.
pub struct Ours<'v, G: Naming> {
    scanned: Scanned<'v>,
    of: PhantomData<G>,
}

// Written by hand, since who drops a type whose drop is derived proves the drop of each type inside again.
impl<'v, G: Naming> Drop for Ours<'v, G> {
    fn drop(self) {
        let Ours {
            scanned: _scanned,
            of: _of,
        } = self;
    }
}

impl<'v, G: Naming> Model for Ours<'v, G> {
    ghost use Rattle.std.specs.Prelude.{◌≡◌};
    ghost use Rattle.scan_task.specs.Standing.{Finished, finished_code};

    ghost Value = { Finished };

    ghost coded = { finished_code };

    ghost view = { λ o. o.scanned };

    ghost invariant = { λ o. o.scanned.config ≡ G.program.config };
}

impl<'v, G: Naming> Ours<'v, G> {
    // A scan of the program.
    pub(crate) fn of(scanned: Scanned<'v>) -> Ours<'v, G>
        requires { scanned.config ≡ G.program.config }
        ensures { result ≡ scanned.entry }
    {
        Ours {
            scanned,
            of: PhantomData,
        }
    }

    // The scan alone.
    pub(crate) fn into_scanned(self) -> Scanned<'v>
        ensures same { result ≡ self.entry }
        ensures program { result.config ≡ G.program.config }
    {
        let Ours { scanned, of: _of } = self;
        scanned
    }
}
