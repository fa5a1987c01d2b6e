// Laws of reading and writing traces.

ghost use Rattle.trace_text.specs.Laws.{ReadsOnce, ReadsWritten};

/// Reading a text gives one thing: its events, or one fault at one line.
pub fn reads_once()
    ensures { ReadsOnce }
{}

/// Reading what was written gives the events of the entries.
pub fn reads_what_was_written()
    ensures { ReadsWritten }
{}
