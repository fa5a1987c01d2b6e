// A trace into a sink that takes a byte a call, and then fails.

ghost use Rattle.std.specs.Prelude.{◌≡◌, Some, false};

use cli_host::sink::{Sink, SinkFault};
use group_spec::hand::Hand;
use group_spec::journal::Entry;
use group_spec::{Bounded, CarFields, Fields};
use trace_text::fault::TraceFault;
use trace_text::write::write_trace;

// A sink that takes a byte a call, so often as calls are left, and then fails.
#[derive(Drop)]
struct ByteByByte {
    taken: Vec<u8>,
    calls_left: u8,
    failed: bool,
}

impl Sink for ByteByByte {
    ghost contents = { λ s. Some s.taken.items };

    ghost has_failed = { λ s. s.failed };

    fn put(&mut self, piece: &[u8]) -> Result<usize, SinkFault> {
        let Some(byte) = piece.first() else {
            return Ok(0);
        };
        if self.calls_left == 0 || self.taken.push(*byte).is_err() {
            self.failed = true;
            return Err(SinkFault);
        }
        self.calls_left -= 1;
        Ok(1)
    }
}

// What one car reports at floor 1.
fn fields() -> Fields {
    let mut cars = Bounded::new();
    cars.push(CarFields {
        pos: 1,
        level: true,
        top: false,
        bottom: true,
        locked: true,
        opened: false,
    });
    Fields {
        time: 100,
        run_limit: 1,
        fire: false,
        cars,
    }
}

// Writes the trace of a refresh, a start and a commit.
fn write_three(sink: &mut ByteByByte) -> Result<(), TraceFault>
    requires { sink.old.failed ≡ false }
{
    let journal = [
        Entry::Refresh {
            fields: fields(),
            calls: Hand::new(),
        },
        Entry::Start(1),
        Entry::Commit(1),
    ];
    write_trace(&journal, sink)
}

#[test]
fn a_sink_that_fails_has_the_bytes_before(rt: HostRuntime) {
    let mut sink = ByteByByte {
        taken: Vec::new(rt.alloc()),
        calls_left: 13,
        failed: false,
    };
    let written = write_three(&mut sink);
    let has_bytes = sink.taken.as_slice() == b"LIFTTRACE 2\nR".as_slice();
    assert!(rt; has_bytes && matches!(written, Err(TraceFault::Write)));
    assert!(rt; TraceFault::Write.number() == Some(82));
}
