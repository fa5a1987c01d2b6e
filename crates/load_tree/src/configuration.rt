// The configuration (IEC 61131-3:2003, 2.7).

ghost use Rattle.std.specs.Prelude.{◌≡◌, ℕ, List, [], IfOk, IfErr};
ghost use Rattle.il_syntax.specs.Grammar.{TheEnd};
ghost use Rattle.load_lines.specs.Reads.{Reads, Refuses, RefusesBy, Stands, Misses, BreaksOff, NamesFirst};
ghost use Rattle.load_tree.specs.Ahead.{RefusesAhead};
ghost use Rattle.load_tree.specs.Parts.{SpellsGlobalList, SpellsSomeGlobals, SpellsTasks, SpellsPrograms, SpellsLines, SpellsResourceOf, SpellsEnding, SpellsGroup, SpellsSmallConfig, SpellsConfigBy};
ghost use Rattle.il_syntax.specs.declared.keyword.Keyword.TheVariants as word;
ghost use Rattle.il_syntax_laws.specs.GoesOn.{always, ended};
ghost use Rattle.load_lines.specs.declared.stop.SyntaxError.TheVariants.{Unexpected};
ghost use Rattle.load_tree.specs.Late.{LeavesLate, AreLateUnits};
ghost use Rattle.load_tree.specs.GoesOn.{stopped, BreaksAll};

use crate::units::units;
use crate::variables::comes;
use base_lists::Items;
use il_syntax::keyword::Keyword;
use il_syntax::tree::{Config, Declaration, Place, ProgramLine, Size, Task, Unit};
use load_lines::{Source, Stop, Tokens};

// Globals, and the place of their list if there is one.
type Globals = (Option<Place>, Items<Declaration>);

// The lines of a resource, and the place of its end.
type Lines = (Items<Task>, Items<ProgramLine>, Place);

// CARS, and FLOORS with SLOTS.
type Sizes = (Size, (Size, Size));

// The list of globals, with its place.
fn global_list(source: &Source, tokens: &mut Tokens) -> Result<(Place, Items<Declaration>), Stop>
    ensures reads { IfOk result (λ x. Reads (SpellsGlobalList source.now) tokens.old x tokens.new) }
    ensures refused { IfErr result (λ e. RefusesAhead SpellsGlobalList source.now tokens.old e) }
    ensures begins { IfErr result (λ e. BreaksOff always SpellsGlobalList source.now tokens.old e) }
{
    tokens.skip_lines();
    let place = source.placed_word(tokens, Keyword::VarGlobal)?;
    tokens.skip_lines();
    let declarations = source.declarations(tokens)?;
    Ok((place, declarations))
}

// The globals, which may be missing.
fn globals(source: &Source, tokens: &mut Tokens) -> Result<Globals, Stop>
    ensures reads { IfOk result (λ x. Reads (SpellsSomeGlobals source.now) tokens.old x
        tokens.new) }
    ensures refused { IfErr result (λ e. Refuses SpellsSomeGlobals source.now tokens.old e) }
    ensures begins { IfErr result (λ e. BreaksOff always SpellsSomeGlobals source.now tokens.old
        e) }
{
    if !comes(source, tokens, Keyword::VarGlobal) {
        return Ok((None, Items::new(source.alloc())));
    }
    let (place, declarations) = global_list(source, tokens)?;
    Ok((Some(place), declarations))
}

// All TASK lines.
fn tasks(source: &Source, tokens: &mut Tokens) -> Result<Items<Task>, Stop>
    ensures reads { IfOk result (λ xs. Reads (SpellsTasks source.now) tokens.old xs tokens.new) }
    ensures refused { IfErr result (λ e. Refuses SpellsTasks source.now tokens.old e) }
    ensures begins { IfErr result (λ e. BreaksOff (stopped word.Task) SpellsTasks source.now
        tokens.old e) }
{
    let mut tasks = Items::new(source.alloc());
    'tasks: while source.word_stands(tokens, Keyword::Task) {
        let task = source.task(tokens)?;
        tasks.push(task)?;
        tokens.skip_lines();
    }
    Ok(tasks)
}

// All PROGRAM lines.
fn programs(source: &Source, tokens: &mut Tokens) -> Result<Items<ProgramLine>, Stop>
    ensures reads { IfOk result (λ xs. Reads (SpellsPrograms source.now) tokens.old xs tokens.new) }
    ensures refused { IfErr result (λ e. Refuses SpellsPrograms source.now tokens.old e) }
    ensures begins { IfErr result (λ e. BreaksOff (stopped word.Program) SpellsPrograms source.now
        tokens.old e) }
{
    let mut programs = Items::new(source.alloc());
    'programs: while source.word_stands(tokens, Keyword::Program) {
        let line = source.program_line(tokens)?;
        programs.push(line)?;
        tokens.skip_lines();
    }
    Ok(programs)
}

// The lines of a resource, and its end.
fn lines(source: &Source, tokens: &mut Tokens) -> Result<Lines, Stop>
    ensures reads { IfOk result (λ x. Reads (SpellsLines source.now) tokens.old x tokens.new) }
    ensures refused { IfErr result (λ e. Refuses SpellsLines source.now tokens.old e) }
    ensures begins { IfErr result (λ e. BreaksOff always SpellsLines source.now tokens.old e) }
{
    let tasks = tasks(source, tokens)?;
    let programs = programs(source, tokens)?;
    let end = source.placed_word(tokens, Keyword::EndResource)?;
    Ok((tasks, programs, end))
}

// The resource.
fn resource(source: &Source, tokens: &mut Tokens) -> Result<Lines, Stop>
    ensures reads { IfOk result (λ x. Reads (SpellsResourceOf source.now) tokens.old x tokens.new) }
    ensures refused { IfErr result (λ e. Refuses SpellsResourceOf source.now tokens.old e) }
    ensures begins { IfErr result (λ e. BreaksOff always SpellsResourceOf source.now tokens.old e) }
{
    source.word(tokens, Keyword::Resource)?;
    tokens.skip_lines();
    source.some_name(tokens)?;
    tokens.skip_lines();
    source.word(tokens, Keyword::On)?;
    tokens.skip_lines();
    source.some_name(tokens)?;
    tokens.skip_lines();
    let lines = lines(source, tokens)?;
    Ok(lines)
}

// The end of the text.
fn text_end(tokens: &Tokens) -> Result<(), Stop>
    ensures reads { IfOk result (λ _. Stands TheEnd tokens.now []) }
    ensures refused { IfErr result (λ e. (text : List ℕ)
        → Misses (λ text. TheEnd) text tokens.now e) }
    ensures first { IfErr result (λ e. NamesFirst tokens.now e) }
{
    match tokens.first() {
        Some(_) => Err(tokens.outside()),
        None => Ok(()),
    }
}

// The resource, and the ends of the configuration and of the text.
fn ending(source: &Source, tokens: &mut Tokens) -> Result<Lines, Stop>
    ensures reads { IfOk result (λ x. Reads (SpellsEnding source.now) tokens.old x []) }
    ensures refused { IfErr result (λ e. Refuses SpellsEnding source.now tokens.old e) }
    ensures begins { IfErr result (λ e. BreaksOff ended SpellsEnding source.now tokens.old e) }
{
    let lines = resource(source, tokens)?;
    tokens.skip_lines();
    source.word(tokens, Keyword::EndConfiguration)?;
    tokens.skip_lines();
    text_end(tokens)?;
    Ok(lines)
}

// What follows CONFIGURATION.
fn group(source: &Source, tokens: &mut Tokens) -> Result<(Sizes, Globals, Lines), Stop>
    ensures reads { IfOk result (λ x. Reads (SpellsGroup source.now) tokens.old x []) }
    ensures refused { IfErr result (λ e. Refuses SpellsGroup source.now tokens.old e) }
    ensures begins { IfErr result (λ e. BreaksOff ended SpellsGroup source.now tokens.old e) }
{
    source.some_name(tokens)?;
    tokens.skip_lines();
    let sizes = source.sizes(tokens)?;
    let globals = globals(source, tokens)?;
    tokens.skip_lines();
    let lines = ending(source, tokens)?;
    Ok((sizes, globals, lines))
}

// The configuration of these units, sizes, globals and lines.
fn config_of(units: Items<Unit>, sizes: Sizes, globals: Globals, lines: Lines) -> Config
    ensures { result ≡ record {
      units = units;
      cars = sizes.0;
      floors = sizes.1.0;
      slots =
          sizes.1.1;
      globals_place = globals.0;
      globals = globals.1;
      tasks = lines.0;
      programs =
          lines.1;
      end_resource = lines.2;
    } }
{
    let (cars, (floors, slots)) = sizes;
    let (globals_place, globals) = globals;
    let (tasks, programs, end_resource) = lines;
    Config {
        units,
        cars,
        floors,
        slots,
        globals_place,
        globals,
        tasks,
        programs,
        end_resource,
    }
}

/// The configuration that all of the tokens spell.
pub fn configuration(source: &Source, tokens: &mut Tokens) -> Result<Config, Stop>
    ensures reads { IfOk result (λ c. Reads (SpellsSmallConfig source.now) tokens.old c []) }
    ensures refused { IfErr result (λ e. RefusesBy SpellsConfigBy source.now tokens.old e) }
    ensures begins { IfErr result (λ e. BreaksAll source.now tokens.old e) }
    ensures late { IfErr result (λ e. LeavesLate (λ vs c. AreLateUnits vs c.units)
        (SpellsConfigBy Unexpected) source.now tokens.old e) }
{
    tokens.skip_lines();
    let units = units(source, tokens)?;
    tokens.skip_lines();
    let (sizes, globals, lines) = group(source, tokens)?;
    Ok(config_of(units, sizes, globals, lines))
}
