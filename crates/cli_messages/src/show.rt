// An outcome, shown on the two streams.

ghost use Rattle.std.specs.Prelude.{◌≡◌, ◌⊎◌, ◌++◌, true, false, IfOk, IfErr};
ghost use Rattle.std.specs.Io.KnownBytes.{Appends, Keeps};
ghost use Rattle.cli_host.specs.Writes.{Writes, AppendsFront};
ghost use Rattle.cli_host.specs.Messages.{message_of, status_of};
ghost use Rattle.cli_messages.specs.Outputs.{bytes_of, Warns};

use crate::output::Output;
use cli_host::sink::{Sink, put_all};
use cli_host::status::{Fault, Status};

/// Writes the output of the program and then its warnings, or what it says of its fault, with a text below that. A standard error that
/// fails changes nothing.
pub fn show<O: Sink, E: Sink>(
    outcome: Result<Output, Fault>,
    below: &[u8],
    out: &mut O,
    err: &mut E,
) -> Status
    requires { O.has_failed out.old ≡ false }
    ensures ends { IfOk outcome (λ _. (result ≡ Status.Done)
        ⊎ ((result ≡ Status.CannotWrite) × (O.has_failed out.new ≡ true))) }
    ensures shown { IfOk outcome (λ output. result ≡ Status.Done
        → Appends (O.contents out.old) (O.contents out.new) (bytes_of output)) }
    ensures front { IfOk outcome (λ output. result ≡ Status.CannotWrite
        → AppendsFront (O.contents out.old) (O.contents out.new) (bytes_of output)) }
    ensures warned { IfOk outcome (λ output. result ≡ Status.Done
        → Warns output (E.contents err.old) (E.contents err.new) (E.has_failed err.new)) }
    ensures cannot_write { IfOk outcome (λ _. result ≡ Status.CannotWrite
        → Writes (E.contents err.old) (E.contents err.new) (E.has_failed err.new)
        (message_of Fault.CannotWrite)) }

    ensures fault { IfErr outcome (λ fault. result ≡ status_of fault) }
    ensures nothing { IfErr outcome (λ _. Keeps (O.contents out.old) (O.contents out.new)) }
    ensures told { IfErr outcome (λ fault. Writes (E.contents err.old) (E.contents err.new)
        (E.has_failed err.new) (message_of fault ++ below.now)) }
{
    match outcome {
        Ok(output) => {
            if output.put(out) {
                output.warn(err);
                return Status::Done;
            }
            let _ = Fault::CannotWrite.put(err);
            Status::CannotWrite
        }
        Err(fault) => {
            tell(&fault, below, err);
            fault.status()
        }
    }
}

/// Writes what the program says of a fault, and a text below that.
pub fn tell<E: Sink>(fault: &Fault, below: &[u8], err: &mut E)
    ensures { Writes (E.contents err.old) (E.contents err.new) (E.has_failed err.new)
        (message_of fault.now ++ below.now) }
{
    if fault.put(err).is_ok() {
        let _ = put_all(err, below);
    }
}
