// Where a group begins that serves: at its opening, or where a trace ends.

ghost use Rattle.std.specs.Prelude.{◌≡◌, None, length, option_map, string_bytes, IfOk, IfErr};
ghost use Rattle.group_spec.specs.World.{opening};
ghost use Rattle.group_journal.specs.Closed.{IsClosed};
ghost use Rattle.serve_lines.specs.Waiting.{waiting_events};
ghost use Rattle.serve_blackbox.specs.Heads.{IsAgain, head_text};
ghost use Rattle.cli_command.specs.Origins.{IsOrigin, IsNoOrigin, IsPrepared, dropped_text};

use cli_host::files::TextFiles;
use cli_host::status::Fault;
use group_world::World;
use scan_task::Verified;
use serve_blackbox::head::{TraceHead, head_of};
use serve_blackbox::resume::{Origin, resume};
use std::alloc::{AllocError, Global};
use trace_text::read::GREATEST_TRACE;

/// A group that is to serve, with what is reported of its beginning and the head of its trace.
pub struct Prepared {
    pub world: World,
    pub head: TraceHead,
    pub told: String,
}

// The opening of a group.
fn opened(alloc: Global, verified: Verified) -> Result<Origin, Fault>
    ensures opening { IfOk result (λ o. o.world.world ≡ opening verified.config) }
    ensures none { IfOk result (λ o. o.dropped ≡ 0) }
    ensures same { IfOk result (λ o. o.world.program ≡ verified) }
    ensures memory { IfErr result (λ fault. fault ≡ Fault.NoMemory) }
{
    let world = World::new(alloc, verified)?;
    Ok(Origin { world, dropped: 0 })
}

/// Where a group of a configuration begins whose text is `source`: at its opening, or where the trace of a name ends, of whose events those
/// after its last whole line are dropped. A trace that can't be read or isn't one of this configuration is a fault.
pub fn origin_of<F: TextFiles>(
    alloc: Global,
    verified: Verified,
    source: &[u8],
    from: Option<&str>,
    files: &F,
) -> Result<Origin, Fault>
    ensures origin { IfOk result (λ o. IsOrigin (F.gives files.now) verified.config source.now
        (option_map (λ name. name.now) from.entry) o.world.world o.dropped) }
    ensures same { IfOk result (λ o. o.world.program ≡ verified) }
    ensures closed { IfOk result (λ o. IsClosed o.world.world) }
    ensures none { IfErr result (IsNoOrigin (F.gives files.now) (F.fails files.now)
        verified.config source.now (option_map (λ name. name.now) from.entry)) }
{
    let Some(name) = from else {
        return opened(alloc, verified);
    };
    match files.read(alloc, name, GREATEST_TRACE + 1) {
        Ok(trace) => resume(alloc, verified, source, &trace),
        Err(why) => {
            verified.release();
            Err(why.into())
        }
    }
}

// What is reported of so many events that are dropped: nothing of none.
fn told_of(alloc: Global, dropped: usize) -> Result<String, AllocError>
    ensures { IfOk result (λ text. string_bytes text ≡ dropped_text dropped) }
{
    let mut text = String::new(alloc);
    if dropped > 0 {
        writeln!(&mut text, "events dropped: {}", dropped)?;
    }
    Ok(text)
}

// What is traced first of a group that begins at a world, and what is reported of events that are dropped.
fn dressed(
    alloc: Global,
    world: &World,
    dropped: usize,
    source: &[u8],
) -> Result<(TraceHead, String), AllocError>
    ensures head { IfOk result (λ p. string_bytes p.0.text
        ≡ head_text world.now.program.config source.now world.now.world) }
    ensures events { IfOk result (λ p. p.0.events ≡ length (waiting_events world.now.world)) }
    ensures again { IfOk result (λ _. IsClosed world.now.world
        → IsAgain world.now.program.config world.now.world) }
    ensures told { IfOk result (λ p. string_bytes p.1 ≡ dropped_text dropped) }
{
    Ok((head_of(alloc, world, source)?, told_of(alloc, dropped)?))
}

/// A group of a configuration whose text is `source`, ready to serve from its opening or from where the trace of a name ends, with the head of its
/// own trace and what is reported of events that are dropped. Where there is none, the fault says why.
pub fn prepare<F: TextFiles>(
    alloc: Global,
    verified: Verified,
    source: &[u8],
    from: Option<&str>,
    files: &F,
) -> Result<Prepared, Fault>
    ensures prepared { IfOk result (λ p. IsPrepared (F.gives files.now) verified.config source.now
        (option_map (λ name. name.now) from.entry) p) }
    ensures same { IfOk result (λ p. p.world.program ≡ verified) }
    ensures closed { IfOk result (λ p. IsClosed p.world.world) }
    ensures none { IfErr result (IsNoOrigin (F.gives files.now) (F.fails files.now)
        verified.config source.now (option_map (λ name. name.now) from.entry)) }
{
    let Origin { world, dropped } = origin_of(alloc, verified, source, from, files)?;
    match dressed(alloc, &world, dropped, source) {
        Ok((head, told)) => Ok(Prepared { world, head, told }),
        Err(_) => {
            world.release();
            Err(Fault::NoMemory)
        }
    }
}
