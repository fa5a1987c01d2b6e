// The lines of a path.

ghost use Rattle.std.specs.Prelude.{◌≡◌, ◌∷◌, ◌++◌, ◌+◌, ◌==◌, ℕ, List, flat_map, IfOk, OnOk, string_bytes};
ghost use Rattle.base_texts.specs.Puts.{Puts};
ghost use Rattle.cli_output.specs.Paths.{path_text, alone, stretches_from, stretch_text, ranged_text};

use itoa::Buffer;
use std::alloc::AllocError;

/// Lines that follow one another.
#[derive(Clone, Copy)]
pub struct Stretch {
    /// The first of them.
    pub first: u32,
    /// The last.
    pub last: u32,
}

impl Stretch {
    // One line.
    fn of(line: u32) -> Stretch
        ensures { result ≡ alone line }
    {
        Stretch {
            first: line,
            last: line,
        }
    }

    // Whether a line is the next one.
    fn is_before(self, line: u32) -> bool
        ensures { result ≡ (line == self.last + 1) }
    {
        line.checked_sub(1) == Some(self.last)
    }
}

/// The lines of a path, each after a space.
pub fn put_path(text: &mut String, path: &[u32]) -> Result<(), AllocError>
    ensures { OnOk result (Puts text.old text.new (path_text path.now)) }
{
    let mut digits = Buffer::new();
    'lines: for line in path {
        text.push_str(" ")?;
        text.push_str(digits.format(*line))?;
    }
    Ok(())
}

/// The lines of a path, those that follow one another as a range.
pub fn put_ranged(text: &mut String, path: &[u32]) -> Result<(), AllocError>
    ensures { OnOk result (Puts text.old text.new (ranged_text path.now)) }
{
    match path.split_first() {
        Some((first, rest)) => put_stretches(text, Stretch::of(*first), rest),
        None => Ok(()),
    }
}

// A stretch that is begun, and those after it.
#[tactic(auto, unfolding(crate::specs::Paths::stretches_from))]
fn put_stretches(text: &mut String, first: Stretch, lines: &[u32]) -> Result<(), AllocError>
    ensures { OnOk result (Puts text.old text.new
        (flat_map stretch_text (stretches_from first lines.now))) }
{
    let mut begun = first;
    'lines: for line in lines {
        begun = put_line(text, begun, *line)?;
    }
    put_stretch(text, begun)
}

// A line after a stretch, which is written where it ends. The stretch that the line belongs to.
#[tactic(auto, using(crate::proofs::Stretches::lengthens, crate::proofs::Stretches::ended))]
fn put_line(text: &mut String, begun: Stretch, line: u32) -> Result<Stretch, AllocError>
    ensures { IfOk result (λ next. (lines : List ℕ)
        → (string_bytes text.new ++ flat_map stretch_text (stretches_from next lines)
        ≡ string_bytes text.old ++ flat_map stretch_text (stretches_from begun (line ∷ lines)))) }
{
    if begun.is_before(line) {
        Ok(Stretch {
            last: line,
            ..begun
        })
    } else {
        put_stretch(text, begun)?;
        Ok(Stretch::of(line))
    }
}

// ` 25-28`, or one line alone.
fn put_stretch(text: &mut String, stretch: Stretch) -> Result<(), AllocError>
    ensures { OnOk result (Puts text.old text.new (stretch_text stretch)) }
{
    write!(text, " {}", stretch.first)?;
    if stretch.first < stretch.last {
        write!(text, "-{}", stretch.last)?;
    }
    Ok(())
}
