// Labels, and the leaves and lines of a configuration (IEC 61131-3:2003, 2.7 and 3.2.1).

ghost use Rattle.std.specs.Prelude.{◌≡◌, ◌<◌, ◌≤◌, length, IfOk, IfErr};
ghost use Rattle.std.specs.Char.{is_ascii_digit};
ghost use Rattle.il_syntax.specs.Text.{is_grouped};
ghost use Rattle.il_syntax.specs.Grammar.{SomeName, TheText, TheWord, ADecimal, SpellsSize, SpellsTask, SpellsProgramLine};
ghost use Rattle.load_lines.specs.declared.stop.Stop.TheVariants.{Memory};
ghost use Rattle.load_lines.specs.Lead.{lead_at};
ghost use Rattle.il_syntax_laws.specs.GoesOn.{always};
ghost use Rattle.load_lines.specs.Reads.{Reads, Refuses, Stands, Misses, BreaksOff, NamesFirst, Shortens};
ghost use Rattle.load_lines.specs.Settings.{AnInterval, PlacedDecimal, FollowsColon, TakesLabel, TakesWord, SpellsSized, SpellsPriority, SpellsSchedule, SpellsTimes, SpellsProgramName, SpellsBound, SpellsWith, PlacedWord, StandsThere, SpellsFloors, SpellsThree, IsSizeWord};

use crate::lead::Lead;
use crate::source::Source;
use crate::stop::Stop;
use crate::tokens::Tokens;
use il_syntax::keyword::Keyword;
use il_syntax::name::Name;
use il_syntax::token::{Kind, Sign};
use il_syntax::tree::{Elementary, Literal, Named, Place, ProgramLine, Size, Task};

impl<'t> Source<'t> {
    /// A label, which may be missing.
    #[tactic(auto, unfolding(crate::specs::Lead::lead_at))]
    pub fn label(&self, tokens: &mut Tokens) -> Result<Option<Named>, Stop>
        ensures takes { IfOk result (λ n. TakesLabel self.now tokens.old n tokens.new) }
        ensures shorter { IfOk result (λ _. length tokens.new ≤ length tokens.old) }
        ensures memory { IfErr result (λ e. e ≡ Memory) }
    {
        let Some(token) = tokens.first() else {
            return Ok(None);
        };
        if !self.colon_follows(tokens) {
            return Ok(None);
        }
        let Lead::Name = self.lead(tokens) else {
            return Ok(None);
        };
        let name = Name::of(self.alloc(), self.spelling(&token))?;
        tokens.advance();
        tokens.advance();
        let place = Place {
            offset: token.start,
            line: token.line,
        };
        Ok(Some(Named { place, name }))
    }

    // Whether a colon follows the first token.
    fn colon_follows(&self, tokens: &Tokens) -> bool
        ensures follows { FollowsColon tokens.now result }
    {
        let mut ahead = tokens.ahead();
        ahead.advance();
        self.eat_sign(&mut ahead, Sign::Colon)
    }

    /// This reserved word with its place, which may be missing, where the tokens begin so.
    pub fn take_placed(&self, tokens: &mut Tokens, lead: Lead, keyword: Keyword) -> Option<Place>
        requires { lead ≡ lead_at self.now tokens.old }
        ensures takes { TakesWord self.now keyword tokens.old result tokens.new }
        ensures shorter { length tokens.new ≤ length tokens.old }
    {
        let place = tokens.place();
        if self.take_word(tokens, lead, keyword) {
            return place;
        }
        None
    }

    /// A name that the tree leaves out.
    #[tactic(auto, unfolding(crate::specs::Lead::lead_at))]
    pub fn some_name(&self, tokens: &mut Tokens) -> Result<(), Stop>
        ensures reads { IfOk result (λ u. Stands (SomeName self.now) tokens.old tokens.new) }
        ensures refused { IfErr result (λ e. Misses SomeName self.now tokens.old e) }
        ensures first { IfErr result (λ e. NamesFirst tokens.old e) }
        ensures shorter { Shortens tokens.old tokens.new result }
    {
        if let Lead::Name = self.lead(tokens) {
            tokens.advance();
            return Ok(());
        }
        Err(tokens.outside())
    }

    /// This word, which is no reserved one.
    pub fn plain_word(&self, tokens: &mut Tokens, word: &str) -> Result<(), Stop>
        ensures reads { IfOk result (λ u. Stands (TheText self.now word.now) tokens.old
            tokens.new) }
        ensures refused { IfErr result (λ e. Misses
            (λ text. TheText text word.now) self.now tokens.old e) }
        ensures first { IfErr result (λ e. NamesFirst tokens.old e) }
        ensures shorter { Shortens tokens.old tokens.new result }
    {
        let Some(token) = tokens.first() else {
            return Err(tokens.outside());
        };
        let Kind::Word = token.kind else {
            return Err(tokens.outside());
        };
        if self.spelling(&token) != word {
            return Err(tokens.outside());
        }
        tokens.advance();
        Ok(())
    }

    /// A decimal without sign and base.
    pub fn decimal(&self, tokens: &mut Tokens) -> Result<i64, Stop>
        ensures reads { IfOk result (λ v. Reads (ADecimal self.now) tokens.old v tokens.new) }
        ensures refused { IfErr result (λ e. Refuses ADecimal self.now tokens.old e) }
        ensures first { IfErr result (λ e. NamesFirst tokens.old e) }
        ensures shorter { Shortens tokens.old tokens.new result }
    {
        let Some(token) = tokens.first() else {
            return Err(tokens.outside());
        };
        let Kind::Number(value) = token.kind else {
            return Err(tokens.outside());
        };
        if !is_plain(self.bytes_of(&token)) {
            return Err(tokens.outside());
        }
        tokens.advance();
        Ok(value)
    }

    /// A time, in milliseconds.
    #[tactic(auto, unfolding(crate::specs::Lead::lead_at))]
    pub fn interval(&self, tokens: &mut Tokens) -> Result<i64, Stop>
        ensures reads { IfOk result (λ v. Reads AnInterval tokens.old v tokens.new) }
        ensures refused { IfErr result (λ e. Refuses (λ text. AnInterval) self.now tokens.old e) }
        ensures first { IfErr result (λ e. NamesFirst tokens.old e) }
        ensures shorter { Shortens tokens.old tokens.new result }
    {
        let Lead::Typed(Literal::Time(value)) = self.lead(tokens) else {
            return Err(tokens.outside());
        };
        tokens.advance();
        Ok(value)
    }

    // A decimal with its place, and a semicolon.
    fn placed_decimal(&self, tokens: &mut Tokens) -> Result<Size, Stop>
        ensures reads { IfOk result (λ s. Reads (PlacedDecimal self.now) tokens.old s tokens.new) }
        ensures refused { IfErr result (λ e. Refuses PlacedDecimal self.now tokens.old e) }
        ensures begins { IfErr result (λ e. BreaksOff always PlacedDecimal self.now tokens.old e) }
        ensures shorter { Shortens tokens.old tokens.new result }
    {
        let Some(place) = tokens.place() else {
            return Err(tokens.outside());
        };
        let value = self.decimal(tokens)?;
        tokens.skip_lines();
        self.sign(tokens, Sign::Semicolon)?;
        Ok(Size { place, value })
    }

    // The type of a size, and its value.
    fn sized(&self, tokens: &mut Tokens) -> Result<Size, Stop>
        ensures reads { IfOk result (λ s. Reads (SpellsSized self.now) tokens.old s tokens.new) }
        ensures refused { IfErr result (λ e. Refuses SpellsSized self.now tokens.old e) }
        ensures begins { IfErr result (λ e. BreaksOff always SpellsSized self.now tokens.old e) }
        ensures shorter { Shortens tokens.old tokens.new result }
    {
        self.word(tokens, Keyword::Elementary(Elementary::Int))?;
        tokens.skip_lines();
        self.sign(tokens, Sign::Assign)?;
        tokens.skip_lines();
        self.placed_decimal(tokens)
    }

    /// CARS, FLOORS or SLOTS, its type and its value.
    pub fn size(&self, tokens: &mut Tokens, word: &str) -> Result<Size, Stop>
        ensures reads { IfOk result (λ s. Reads (SpellsSize self.now word.now) tokens.old s
            tokens.new) }
        ensures refused { IfErr result (λ e. Refuses
            (λ text. SpellsSize text word.now) self.now tokens.old e) }
        ensures begins { IsSizeWord word.now → IfErr result (λ e. BreaksOff always (λ text.
            SpellsSize text word.now) self.now tokens.old e) }
        ensures shorter { Shortens tokens.old tokens.new result }
    {
        self.plain_word(tokens, word)?;
        tokens.skip_lines();
        self.sign(tokens, Sign::Colon)?;
        tokens.skip_lines();
        self.sized(tokens)
    }

    // The priority of a task.
    fn priority(&self, tokens: &mut Tokens) -> Result<i64, Stop>
        ensures reads { IfOk result (λ v. Reads (SpellsPriority self.now) tokens.old v tokens.new) }
        ensures refused { IfErr result (λ e. Refuses SpellsPriority self.now tokens.old e) }
        ensures begins { IfErr result (λ e. BreaksOff always SpellsPriority self.now tokens.old e) }
        ensures shorter { Shortens tokens.old tokens.new result }
    {
        self.word(tokens, Keyword::Priority)?;
        tokens.skip_lines();
        self.sign(tokens, Sign::Assign)?;
        tokens.skip_lines();
        let value = self.decimal(tokens)?;
        tokens.skip_lines();
        self.sign(tokens, Sign::CloseParenthesis)?;
        tokens.skip_lines();
        self.sign(tokens, Sign::Semicolon)?;
        Ok(value)
    }

    // A time, a comma and the priority.
    fn schedule(&self, tokens: &mut Tokens) -> Result<(i64, i64), Stop>
        ensures reads { IfOk result (λ x. Reads (SpellsSchedule self.now) tokens.old x tokens.new) }
        ensures refused { IfErr result (λ e. Refuses SpellsSchedule self.now tokens.old e) }
        ensures begins { IfErr result (λ e. BreaksOff always SpellsSchedule self.now tokens.old e) }
        ensures shorter { Shortens tokens.old tokens.new result }
    {
        let interval = self.interval(tokens)?;
        tokens.skip_lines();
        self.sign(tokens, Sign::Comma)?;
        tokens.skip_lines();
        let priority = self.priority(tokens)?;
        Ok((interval, priority))
    }

    // The interval of a task, and its priority.
    fn times(&self, tokens: &mut Tokens) -> Result<(i64, i64), Stop>
        ensures reads { IfOk result (λ x. Reads (SpellsTimes self.now) tokens.old x tokens.new) }
        ensures refused { IfErr result (λ e. Refuses SpellsTimes self.now tokens.old e) }
        ensures begins { IfErr result (λ e. BreaksOff always SpellsTimes self.now tokens.old e) }
        ensures shorter { Shortens tokens.old tokens.new result }
    {
        self.sign(tokens, Sign::OpenParenthesis)?;
        tokens.skip_lines();
        self.word(tokens, Keyword::Interval)?;
        tokens.skip_lines();
        self.sign(tokens, Sign::Assign)?;
        tokens.skip_lines();
        self.schedule(tokens)
    }

    /// A reserved word with its place.
    pub fn placed_word(&self, tokens: &mut Tokens, keyword: Keyword) -> Result<Place, Stop>
        ensures reads { IfOk result (λ p. Reads (PlacedWord self.now keyword) tokens.old p
            tokens.new) }
        ensures refused { IfErr result (λ e. Refuses
            (λ text. PlacedWord text keyword) self.now tokens.old e) }
        ensures first { IfErr result (λ e. NamesFirst tokens.old e) }
        ensures shorter { Shortens tokens.old tokens.new result }
    {
        let Some(place) = tokens.place() else {
            return Err(tokens.outside());
        };
        self.word(tokens, keyword)?;
        Ok(place)
    }

    /// Whether the reserved word is at the front.
    pub fn word_stands(&self, tokens: &Tokens, keyword: Keyword) -> bool
        ensures stands { StandsThere (TheWord self.now keyword) tokens.now result }
    {
        self.eat_word(&mut tokens.ahead(), keyword)
    }

    /// A TASK line.
    pub fn task(&self, tokens: &mut Tokens) -> Result<Task, Stop>
        ensures reads { IfOk result (λ t. Reads (SpellsTask self.now) tokens.old t tokens.new) }
        ensures refused { IfErr result (λ e. Refuses SpellsTask self.now tokens.old e) }
        ensures begins { IfErr result (λ e. BreaksOff always SpellsTask self.now tokens.old e) }
        ensures shorter { Shortens tokens.old tokens.new result }
    {
        let place = self.placed_word(tokens, Keyword::Task)?;
        tokens.skip_lines();
        let name = self.named(tokens)?;
        tokens.skip_lines();
        let times = self.times(tokens)?;
        Ok(task_of(place, name, times))
    }

    // The name of a program, and a semicolon.
    fn program_name(&self, tokens: &mut Tokens) -> Result<Named, Stop>
        ensures reads { IfOk result (λ n. Reads (SpellsProgramName self.now) tokens.old n
            tokens.new) }
        ensures refused { IfErr result (λ e. Refuses SpellsProgramName self.now tokens.old e) }
        ensures begins { IfErr result (λ e. BreaksOff always SpellsProgramName self.now tokens.old
            e) }
        ensures shorter { Shortens tokens.old tokens.new result }
    {
        let program = self.named(tokens)?;
        tokens.skip_lines();
        self.closed(tokens, Sign::Semicolon, program)
    }

    // The names of a task and a program.
    fn bound(&self, tokens: &mut Tokens) -> Result<(Named, Named), Stop>
        ensures reads { IfOk result (λ x. Reads (SpellsBound self.now) tokens.old x tokens.new) }
        ensures refused { IfErr result (λ e. Refuses SpellsBound self.now tokens.old e) }
        ensures begins { IfErr result (λ e. BreaksOff always SpellsBound self.now tokens.old e) }
        ensures shorter { Shortens tokens.old tokens.new result }
    {
        let task = self.named(tokens)?;
        tokens.skip_lines();
        self.sign(tokens, Sign::Colon)?;
        tokens.skip_lines();
        let program = self.program_name(tokens)?;
        Ok((task, program))
    }

    // WITH, and the names of a task and a program.
    fn binding(&self, tokens: &mut Tokens) -> Result<(Named, Named), Stop>
        ensures reads { IfOk result (λ x. Reads (SpellsWith self.now) tokens.old x tokens.new) }
        ensures refused { IfErr result (λ e. Refuses SpellsWith self.now tokens.old e) }
        ensures begins { IfErr result (λ e. BreaksOff always SpellsWith self.now tokens.old e) }
        ensures shorter { Shortens tokens.old tokens.new result }
    {
        self.word(tokens, Keyword::With)?;
        tokens.skip_lines();
        self.bound(tokens)
    }

    /// A PROGRAM line.
    pub fn program_line(&self, tokens: &mut Tokens) -> Result<ProgramLine, Stop>
        ensures reads { IfOk result (λ p. Reads (SpellsProgramLine self.now) tokens.old p
            tokens.new) }
        ensures refused { IfErr result (λ e. Refuses SpellsProgramLine self.now tokens.old e) }
        ensures begins { IfErr result (λ e. BreaksOff always SpellsProgramLine self.now tokens.old
            e) }
        ensures shorter { Shortens tokens.old tokens.new result }
    {
        let place = self.placed_word(tokens, Keyword::Program)?;
        tokens.skip_lines();
        let name = self.named(tokens)?;
        tokens.skip_lines();
        let (task, program) = self.binding(tokens)?;
        Ok(ProgramLine {
            place,
            name,
            task,
            program,
        })
    }

    // FLOORS and SLOTS, and END_VAR.
    fn floors(&self, tokens: &mut Tokens) -> Result<(Size, Size), Stop>
        ensures reads { IfOk result (λ x. Reads (SpellsFloors self.now) tokens.old x tokens.new) }
        ensures refused { IfErr result (λ e. Refuses SpellsFloors self.now tokens.old e) }
        ensures begins { IfErr result (λ e. BreaksOff always SpellsFloors self.now tokens.old e) }
        ensures shorter { Shortens tokens.old tokens.new result }
    {
        let floors = self.size(tokens, "FLOORS")?;
        tokens.skip_lines();
        let slots = self.size(tokens, "SLOTS")?;
        tokens.skip_lines();
        self.word(tokens, Keyword::EndVar)?;
        Ok((floors, slots))
    }

    /// The list of the three sizes.
    pub fn sizes(&self, tokens: &mut Tokens) -> Result<(Size, (Size, Size)), Stop>
        ensures reads { IfOk result (λ x. Reads (SpellsThree self.now) tokens.old x tokens.new) }
        ensures refused { IfErr result (λ e. Refuses SpellsThree self.now tokens.old e) }
        ensures begins { IfErr result (λ e. BreaksOff always SpellsThree self.now tokens.old e) }
        ensures shorter { Shortens tokens.old tokens.new result }
    {
        self.word(tokens, Keyword::VarGlobal)?;
        tokens.skip_lines();
        self.word(tokens, Keyword::Constant)?;
        tokens.skip_lines();
        let cars = self.size(tokens, "CARS")?;
        tokens.skip_lines();
        let others = self.floors(tokens)?;
        Ok((cars, others))
    }
}

// The task of this name with its interval and its priority.
fn task_of(place: Place, name: Named, times: (i64, i64)) -> Task
    ensures { result ≡ record {
      place = place;
      name = name;
      interval = times.0;
      priority = times.1;
    } }
{
    Task {
        place,
        name,
        interval: times.0,
        priority: times.1,
    }
}

// Whether these are digits, with single underscores between them.
#[tactic(auto, using(crate::proofs::Grouped::grouped_more, crate::proofs::Grouped::grouped_end))]
fn is_plain(bytes: &[u8]) -> bool
    ensures { result ≡ is_grouped is_ascii_digit bytes.now }
{
    let mut inside = false;
    for byte in bytes {
        if *byte == b'_' {
            if !inside {
                return false;
            }
            inside = false;
        } else {
            if !byte.is_ascii_digit() {
                return false;
            }
            inside = true;
        }
    }
    inside
}
