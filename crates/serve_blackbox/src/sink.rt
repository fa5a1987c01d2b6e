// Where the events of a group are written as they come.

ghost use Rattle.std.specs.Prelude.{◌≡◌, None, true, IfOk, OnOk, OnErr};
ghost use Rattle.cli_host.specs.Writes.{AppendsFront};
ghost use Rattle.serve_blackbox.specs.Keeping.{IsNew, Turns};

use cli_host::sink::{Sink, SinkFault};

/// Where the events of a group are written as they come: a file, or a list in memory. Until a trace is created, what is put there is lost.
pub trait TraceSink: Sink {
    /// Creates the trace of a name, which must not be there. With `sync` each piece waits for the disk, and those of the traces after it do.
    fn create(&mut self, name: &str, sync: bool) -> Result<(), SinkFault>
        ensures made { OnOk result ((Self.made self.new).is name.now sync ≡ true) }
        ensures empty { OnOk result (IsNew (Self.contents self.new)) }
        ensures going { OnOk result (Self.has_failed self.new ≡ Self.has_failed self.old) }
        ensures failed { OnErr result (Self.has_failed self.new ≡ true) }
        ensures unmade { OnErr result ((Self.contents self.new ≡ Self.contents self.old)
            × (Self.made self.new ≡ Self.made self.old)) };

    /// Creates the trace of another name, which must not be there, with this head; then ends the present one with its last line, and goes on in
    /// the other. Where no trace was created before, or the other can't be created or can't have its head, all stays as it was, and the answer is
    /// false.
    fn turn(&mut self, name: &str, head: &[u8], last: &[u8]) -> Result<bool, SinkFault>
        ensures turns { IfOk result (λ kept. Turns name.now head.now last.now kept
            (Self.contents self.old) (Self.contents self.new) (Self.made self.old) (Self.made self.new)) }
        ensures going { OnOk result (Self.has_failed self.new ≡ Self.has_failed self.old) }
        ensures failed { OnErr result (Self.has_failed self.new ≡ true) }
        ensures front { OnErr result (AppendsFront (Self.contents self.old) (Self.contents self.new)
            last.now) }
        ensures stays { OnErr result (Self.made self.new ≡ Self.made self.old) }
        // one that doesn't tell its bytes doesn't tell them later
        ensures silent { Self.contents self.old ≡ None → Self.contents self.new ≡ None };
}
