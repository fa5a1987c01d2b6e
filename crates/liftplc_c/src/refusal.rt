// Why a controller isn't opened.

ghost use Rattle.std.specs.Prelude.{◌≡◌, ◌≢◌, ◌⊎◌};
ghost use Rattle.liftplc_c.specs.Refusals.{fault_in, trace_fault_in, text_status, trace_status, IsOfTrace};

use crate::status::Status;
use cli_host::status::Fault;
use group_world::Refusal;

/// Why a text or a trace is refused: the number of its fault, and its place, as its line, counted from 1, and, of a text, as how many bytes
/// come before it.
#[repr(C)]
#[derive(Clone, Copy)]
pub struct TextRefusal {
    pub number: u16,
    pub line: u32,
    pub offset: u32,
}

/// Writes why a text is refused. The status is 1, or 2 where memory is missing; then nothing is written.
pub fn refuse_text(why: Refusal, refusal: &mut TextRefusal) -> u32
    ensures status { result ≡ text_status why }
    ensures either { (result ≡ 1) ⊎ (result ≡ 2) }
    ensures written { result ≡ 1 → fault_in refusal.new ≡ why }
    ensures unwritten { result ≢ 1 → refusal.new ≡ refusal.old }
{
    match why {
        Refusal::Fault { number, place } => {
            *refusal = TextRefusal {
                number,
                line: place.line,
                offset: place.offset,
            };
            Status::Refused as u32
        }
        Refusal::Memory => Status::NoMemory as u32,
    }
}

/// Writes why a trace is refused. The status is 10, or 2 where memory is missing; then nothing is written.
pub fn refuse_trace(why: Fault, refusal: &mut TextRefusal) -> u32
    requires { IsOfTrace why }
    ensures status { result ≡ trace_status why }
    ensures either { (result ≡ 10) ⊎ (result ≡ 2) }
    ensures written { result ≡ 10 → trace_fault_in refusal.new ≡ why }
    ensures offset { result ≡ 10 → refusal.new.offset ≡ 0 }
    ensures unwritten { result ≢ 10 → refusal.new ≡ refusal.old }
{
    match why {
        Fault::Refused { number, line } => {
            *refusal = TextRefusal {
                number,
                line,
                offset: 0,
            };
            Status::NoTrace as u32
        }
        Fault::NoMemory => Status::NoMemory as u32,
        _ => unreachable!(),
    }
}
