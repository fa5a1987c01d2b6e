// Bodies (IEC 61131-3:2003, 3.2.1 and 3.2.2).

ghost use Rattle.std.specs.Prelude.{◌≡◌, ◌⊎◌, ◌<◌, ◌≤◌, length, IsTrue, IsFalse, IfOk, IfErr, false};
ghost use Rattle.il_syntax.specs.Grammar.{loose, TheLineEnd, depth_after, needs_load, SpellsBody};
ghost use Rattle.il_syntax.specs.declared.keyword.Keyword.{Keyword};
ghost use Rattle.load_lines.specs.Lead.{lead_at};
ghost use Rattle.load_lines.specs.Reads.{Reads, RefusesBy, Eats, fault_at, Refuses, Shortens};
ghost use Rattle.load_lines.specs.declared.stop.SyntaxError.TheVariants.{Unexpected, TooMany};
ghost use Rattle.load_lines.specs.declared.stop.Stop.TheVariants.{Memory};
ghost use Rattle.load_tree.specs.Ahead.{RefusesAheadBy, RefusesAhead};
ghost use Rattle.load_tree.specs.Bodies.{closes_lead, leaves_lead, ends_lead, loads_lead, begins_lead, may_begin, SpellsPlaced, RefusesPlaced, HasLabels, TakesEnd, SpellsNext, SpellsNextBy, ShortensByStep, IsLast, SpellsSteps, SpellsStepsBy, SpellsSmallBody, SpellsBodyBy};
ghost use Rattle.load_lines.specs.declared.lead.Lead.TheVariants as begins;
ghost use Rattle.load_tree.specs.GoesOn.{BreaksPlaced, BreaksFrom, BreaksSteps, BreaksWith};
ghost use Rattle.load_tree.specs.Late.{EndsNone, LeavesRest, LeavesSteps, LeavesWith};
ghost use Rattle.il_syntax.specs.declared.limits.TheConstants.{MOST_INSTRUCTIONS, MOST_OPEN};

use base_lists::Items;
use il_syntax::keyword::Keyword;
use il_syntax::limits::{MOST_INSTRUCTIONS, MOST_OPEN};
use il_syntax::token::{Kind, Sign};
use il_syntax::tree::{Body, Instruction, Named, Place, Step};
use load_lines::{Lead, Source, Stop, SyntaxError, Tokens};

/// What comes next in a body: an instruction with its labels, or the end with those that name it.
#[derive(Drop)]
pub enum Entry {
    Step(Step),
    End { labels: Items<Named>, place: Place },
}

// Whether a `)` begins so.
fn closes(lead: Lead) -> bool
    ensures { result ≡ closes_lead lead }
{
    match lead {
        Lead::Sign(Sign::CloseParenthesis) => true,
        _ => false,
    }
}

// Whether a jump, a return or a call begins so.
fn leaves(lead: Lead) -> bool
    ensures { result ≡ leaves_lead lead }
{
    match lead {
        Lead::Reserved(Keyword::Jump(_) | Keyword::Return(_) | Keyword::Call(_)) => true,
        _ => false,
    }
}

// Whether a word that ends a body begins so.
fn ends(lead: Lead) -> bool
    ensures { result ≡ ends_lead lead }
{
    match lead {
        Lead::Reserved(Keyword::EndFunction | Keyword::EndFunctionBlock | Keyword::EndProgram) =>
            true,
        _ => false,
    }
}

// Whether a load begins so.
fn loads(lead: Lead) -> bool
    ensures { result ≡ loads_lead lead }
{
    match lead {
        Lead::Reserved(Keyword::Load { .. }) => true,
        _ => false,
    }
}

// Whether what begins so may be in so many parentheses.
fn may_begin(depth: usize, load: bool, lead: Lead) -> bool
    ensures { result ≡ may_begin depth load lead }
{
    if depth == 0 {
        !closes(lead)
    } else {
        !leaves(lead) && (!load || loads(lead))
    }
}

// The fault where a body is full: an instruction too many, or what begins none.
fn surplus(tokens: &Tokens, lead: Lead) -> Stop
    ensures { ((result ≡ fault_at TooMany tokens.now) × IsTrue (begins_lead lead))
        ⊎ ((result ≡ fault_at Unexpected tokens.now) × IsFalse (begins_lead lead)) }
{
    match lead {
        Lead::Name | Lead::Sign(Sign::Ampersand | Sign::CloseParenthesis) => {
            tokens.fault(SyntaxError::TooMany)
        }
        Lead::Reserved(
            Keyword::Load { .. }
            | Keyword::Store(_)
            | Keyword::Not
            | Keyword::Operate(_)
            | Keyword::Jump(_)
            | Keyword::Call(_)
            | Keyword::Return(_),
        ) => tokens.fault(SyntaxError::TooMany),
        _ => tokens.outside(),
    }
}

// Whether one parenthesis more may open.
fn has_room(depth: usize) -> bool
    ensures yes { IsTrue result → depth < MOST_OPEN }
    ensures no { IsFalse result → MOST_OPEN ≤ depth }
{
    depth < MOST_OPEN
}

// An instruction that begins so at its place, in so many parentheses.
#[inline(always)]
fn placed(
    source: &Source,
    tokens: &mut Tokens,
    lead: Lead,
    depth: usize,
    load: bool,
    full: bool,
) -> Result<(Place, Instruction), Stop>
    requires depth { depth ≤ MOST_OPEN }
    requires lead { lead ≡ lead_at source.now tokens.old }
    ensures reads { IfOk result (λ x. Reads (SpellsPlaced source.now depth load full) tokens.old x
        tokens.new) }
    ensures refused { IfErr result (λ e. RefusesPlaced source.now depth load full tokens.old e) }
    ensures begins { IfErr result (λ e. (last : Keyword) → BreaksPlaced last depth load full
        source.now tokens.old e) }
    ensures late { IfErr result (λ e. EndsNone full source.now tokens.old e) }
    ensures shorter { Shortens tokens.old tokens.new result }
{
    let Some(place) = tokens.place() else {
        return Err(tokens.outside());
    };
    if !may_begin(depth, load, lead) {
        return Err(tokens.outside());
    }
    if full {
        return Err(surplus(tokens, lead));
    }
    let instruction = source.instruction(tokens, lead, has_room(depth))?;
    Ok((place, instruction))
}

// Whether the line ends at the front. The line end is taken if it does.
fn eat_line_end(tokens: &mut Tokens) -> bool
    ensures eaten { Eats TheLineEnd tokens.old result tokens.new }
    ensures shorter { length tokens.new ≤ length tokens.old }
{
    let Some(token) = tokens.first() else {
        return false;
    };
    let Kind::LineEnd = token.kind else {
        return false;
    };
    tokens.advance();
    true
}

// Labels, and whether the last is alone on its line.
#[inline(always)]
fn labels(source: &Source, tokens: &mut Tokens) -> Result<(Items<Named>, bool), Stop>
    ensures labels { IfOk result (λ x. HasLabels source.now tokens.old x.0 x.1 tokens.new) }
    ensures shorter { IfOk result (λ _. length tokens.new ≤ length tokens.old) }
    ensures memory { IfErr result (λ e. e ≡ Memory) }
{
    let mut labels = Items::new(source.alloc());
    'labels: while let Some(label) = source.label(tokens)? {
        labels.push(label)?;
        let alone = eat_line_end(tokens);
        tokens.skip_lines();
        if !alone {
            return Ok((labels, false));
        }
    }
    Ok((labels, true))
}

// The word that ends the body, where it may be and the tokens begin so. Most begin an instruction, which is told first.
#[inline(always)]
fn eat_end(
    source: &Source,
    tokens: &mut Tokens,
    lead: Lead,
    last: Keyword,
    alone: bool,
) -> Option<Place>
    requires last { IsLast last }
    requires lead { lead ≡ lead_at source.now tokens.old }
    ensures takes { TakesEnd source.now last alone tokens.old result tokens.new }
    ensures shorter { length tokens.new ≤ length tokens.old }
{
    if !ends(lead) {
        return None;
    }
    if !alone {
        return None;
    }
    source.take_placed(tokens, lead, last)
}

// An instruction with its labels or the end of the body, outside parentheses.
#[inline(always)]
fn outer(
    source: &Source,
    tokens: &mut Tokens,
    last: Keyword,
    load: bool,
    full: bool,
) -> Result<Entry, Stop>
    requires { IsLast last }
    ensures reads { IfOk result (λ x. Reads (SpellsNext source.now last 0 load full) tokens.old x
        tokens.new) }
    ensures refused { IfErr result (λ e. RefusesBy
        (SpellsNextBy last 0 load full) source.now tokens.old e) }
    ensures begins { IfErr result (λ e. BreaksFrom last 0 load full source.now tokens.old e) }
    ensures late { IfErr result (λ e. LeavesRest last 0 load full source.now tokens.old e) }
    ensures shorter { IfOk result (λ x. ShortensByStep tokens.old x tokens.new) }
{
    let (labels, alone) = labels(source, tokens)?;
    let lead = source.lead(tokens);
    if let Some(place) = eat_end(source, tokens, lead, last, alone) {
        return Ok(Entry::End { labels, place });
    }
    let (place, instruction) = placed(source, tokens, lead, 0, load, full)?;
    Ok(Entry::Step(Step {
        labels,
        place,
        instruction,
    }))
}

// An instruction with its labels, or the end of the body.
#[inline(always)]
fn next_entry(
    source: &Source,
    tokens: &mut Tokens,
    last: Keyword,
    depth: usize,
    load: bool,
    full: bool,
) -> Result<Entry, Stop>
    requires depth { depth ≤ MOST_OPEN }
    requires last { IsLast last }
    ensures reads { IfOk result (λ x. Reads (SpellsNext source.now last depth load full)
        tokens.old x tokens.new) }
    ensures refused { IfErr result (λ e. RefusesBy
        (SpellsNextBy last depth load full) source.now tokens.old e) }
    ensures begins { IfErr result (λ e. BreaksFrom last depth load full source.now tokens.old e) }
    ensures late { IfErr result (λ e. LeavesRest last depth load full source.now tokens.old e) }
    ensures shorter { IfOk result (λ x. ShortensByStep tokens.old x tokens.new) }
{
    if depth == 0 {
        return outer(source, tokens, last, load, full);
    }
    let lead = source.lead(tokens);
    let (place, instruction) = placed(source, tokens, lead, depth, load, full)?;
    Ok(Entry::Step(Step {
        labels: Items::new(source.alloc()),
        place,
        instruction,
    }))
}

// How many parentheses are open after an instruction.
fn depth_after(depth: usize, instruction: &Instruction) -> usize
    requires { depth ≤ MOST_OPEN }
    ensures { result ≡ depth_after depth instruction.now }
{
    match instruction {
        Instruction::Defer { .. } => depth + 1,
        Instruction::Evaluate => depth.saturating_sub(1),
        _ => depth,
    }
}

// Whether a load has to follow.
fn needs_load(instruction: &Instruction) -> bool
    ensures { result ≡ needs_load instruction.now }
{
    match instruction {
        Instruction::Defer { first: None, .. } => true,
        _ => false,
    }
}

// Whether a body has as many instructions as it may have.
fn is_full(steps: &Items<Step>) -> bool
    ensures yes { IsTrue result → length steps.now ≡ MOST_INSTRUCTIONS }
    ensures no { IsFalse result → length steps.now ≡ MOST_INSTRUCTIONS → ⊥ }
{
    steps.as_slice().len() == MOST_INSTRUCTIONS
}

// The instructions of a body, and its end.
fn steps(source: &Source, tokens: &mut Tokens, last: Keyword) -> Result<Body, Stop>
    requires { IsLast last }
    ensures reads { IfOk result (λ b. Reads (SpellsSteps source.now last) tokens.old b tokens.new) }
    ensures refused { IfErr result (λ e. RefusesBy
        (SpellsStepsBy last) source.now tokens.old e) }
    ensures begins { IfErr result (λ e. BreaksSteps last source.now tokens.old e) }
    ensures late { IfErr result (λ e. LeavesSteps last source.now tokens.old e) }
{
    let mut steps = Items::new(source.alloc());
    let mut depth = 0;
    let mut load = false;
    'steps: loop {
        let full = is_full(&steps);
        match next_entry(source, tokens, last, depth, load, full)? {
            Entry::End { labels, place } => {
                return Ok(Body {
                    steps,
                    last_labels: labels,
                    end: place,
                });
            }
            Entry::Step(step) => {
                load = needs_load(&step.instruction);
                depth = depth_after(depth, &step.instruction);
                steps.push(step)?;
                tokens.skip_lines();
            }
        }
    }
}

/// The body of a unit, up to the word that ends it.
pub fn body(source: &Source, tokens: &mut Tokens, last: Keyword) -> Result<Body, Stop>
    requires { IsLast last }
    ensures reads { IfOk result (λ b. Reads (SpellsSmallBody source.now last) tokens.old b
        tokens.new) }
    ensures refused { IfErr result (λ e. RefusesAheadBy
        (SpellsBodyBy last) source.now tokens.old e) }
    ensures begins { IfErr result (λ e. BreaksWith loose (λ b. b) (λ text. SpellsBody text last)
        source.now tokens.old e) }
    ensures late { IfErr result (λ e. LeavesWith (λ b. b)
        (SpellsBodyBy last Unexpected) source.now tokens.old e) }
{
    source.line_end(tokens)?;
    tokens.skip_lines();
    Ok(steps(source, tokens, last)?)
}
