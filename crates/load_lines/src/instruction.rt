// Instructions (IEC 61131-3:2003, 3.2.1 and 3.2.2).

ghost use Rattle.std.specs.Prelude.{◌≡◌, ◌<◌, ◌≤◌, length, true, IfOk, IfErr};
ghost use Rattle.il_syntax.specs.Grammar.{TheLetterN, SpellsTarget, SpellsFirst};
ghost use Rattle.il_syntax.specs.declared.keyword.Keyword.TheVariants as word;
ghost use Rattle.il_syntax.specs.declared.token.Sign.TheVariants.{Ampersand, CloseParenthesis};
ghost use Rattle.load_lines.specs.declared.lead.Lead.TheVariants as lead;
ghost use Rattle.load_lines.specs.declared.stop.Stop.TheVariants.{Memory};
ghost use Rattle.load_lines.specs.Lead.{lead_at};
ghost use Rattle.il_syntax_laws.specs.GoesOn.{always, calm};
ghost use Rattle.load_lines.specs.Reads.{Reads, Refuses, Eats, SpellsWork, SpellsRoomy, SpellsTargetLine, SpellsNameLine, SpellsLine, BreaksOff, BreaksOffAs, SpellsWorkOf, SpellsRoomyOf, RefusesBy, SpellsWorkBy, SpellsRoomyBy, Shortens};

use crate::lead::Lead;
use crate::source::Source;
use crate::stop::{Stop, SyntaxError};
use crate::tokens::{Gap, Tokens};
use il_syntax::keyword::Keyword;
use il_syntax::token::{Kind, Sign};
use il_syntax::tree::{Condition, Instruction, Logic, Named, Operand, Operator, Store};

impl<'t> Source<'t> {
    /// An operand that may be stored into.
    #[inline(always)]
    #[tactic(auto, unfolding(crate::specs::Lead::lead_at))]
    pub fn target(&self, tokens: &mut Tokens) -> Result<Operand, Stop>
        ensures reads { IfOk result (λ o. Reads (SpellsTarget self.now) tokens.old o tokens.new) }
        ensures refused { IfErr result (λ e. Refuses SpellsTarget self.now tokens.old e) }
        ensures begins { IfErr result (λ e. BreaksOff calm SpellsTarget self.now tokens.old e) }
        ensures shorter { Shortens tokens.old tokens.new result }
    {
        let Some(place) = tokens.place() else {
            return Err(tokens.outside());
        };
        let Lead::Name = self.lead(tokens) else {
            return Err(tokens.outside());
        };
        let reference = self.selected(tokens, Gap::Tight)?;
        Ok(Operand { place, reference })
    }

    /// A target, and the end of its line.
    #[inline(always)]
    pub fn target_line(&self, tokens: &mut Tokens) -> Result<Operand, Stop>
        ensures reads { IfOk result (λ o. Reads (SpellsTargetLine self.now) tokens.old o
            tokens.new) }
        ensures refused { IfErr result (λ e. Refuses SpellsTargetLine self.now tokens.old e) }
        ensures begins { IfErr result (λ e. BreaksOff always SpellsTargetLine self.now tokens.old
            e) }
        ensures shorter { Shortens tokens.old tokens.new result }
    {
        let operand = self.target(tokens)?;
        self.ended(tokens, operand)
    }

    /// A name, and the end of its line.
    pub fn name_line(&self, tokens: &mut Tokens) -> Result<Named, Stop>
        ensures reads { IfOk result (λ n. Reads (SpellsNameLine self.now) tokens.old n tokens.new) }
        ensures refused { IfErr result (λ e. Refuses SpellsNameLine self.now tokens.old e) }
        ensures begins { IfErr result (λ e. BreaksOff always SpellsNameLine self.now tokens.old e) }
        ensures shorter { Shortens tokens.old tokens.new result }
    {
        let name = self.named(tokens)?;
        self.ended(tokens, name)
    }

    /// The operand of an operator that opens a parenthesis, which may be missing.
    #[tactic(auto, unfolding(crate::specs::Lead::lead_at))]
    pub fn first_operand(&self, tokens: &mut Tokens) -> Result<Option<Operand>, Stop>
        ensures reads { IfOk result (λ o. Reads (SpellsFirst self.now) tokens.old o tokens.new) }
        ensures refused { IfErr result (λ e. Refuses SpellsFirst self.now tokens.old e) }
        ensures begins { IfErr result (λ e. BreaksOff always SpellsLine self.now tokens.old e) }
        ensures shorter { Shortens tokens.old tokens.new result }
    {
        if let Lead::LineEnd = self.lead(tokens) {
            tokens.advance();
            return Ok(None);
        }
        Ok(Some(self.operand_line(tokens)?))
    }

    /// What follows an operator: an operand, or a parenthesis that opens where there is room.
    #[inline(always)]
    pub fn work(
        &self,
        tokens: &mut Tokens,
        operator: Operator,
        room: bool,
    ) -> Result<Instruction, Stop>
        ensures reads { IfOk result (λ i. Reads (SpellsWork self.now room operator) tokens.old i
            tokens.new) }
        ensures refused { IfErr result (λ e. RefusesBy
            (SpellsWorkBy room operator) self.now tokens.old e) }
        ensures begins { IfErr result (λ e. BreaksOffAs (SpellsWorkOf operator) room self.now
            tokens.old e) }
        ensures shorter { Shortens tokens.old tokens.new result }
    {
        let fault = tokens.fault(SyntaxError::TooDeep);
        if self.eat_sign(tokens, Sign::OpenParenthesis) {
            if !room {
                return Err(fault);
            }
            let first = self.first_operand(tokens)?;
            return Ok(Instruction::Defer { operator, first });
        }
        let operand = self.operand_line(tokens)?;
        Ok(Instruction::Operate { operator, operand })
    }

    // LD or LDN, where its word is.
    #[inline(always)]
    fn load(&self, tokens: &mut Tokens, negated: bool, room: bool) -> Result<Instruction, Stop>
        requires { lead_at self.now tokens.old ≡ lead.Reserved (word.Load negated) }
        ensures reads { IfOk result (λ i. Reads (SpellsRoomy self.now room) tokens.old i
            tokens.new) }
        ensures refused { IfErr result (λ e. RefusesBy (SpellsRoomyBy room)
            self.now tokens.old e) }
        ensures begins { IfErr result (λ e. BreaksOffAs SpellsRoomyOf room self.now tokens.old e) }
        ensures shorter { Shortens tokens.old tokens.new result }
    {
        tokens.advance();
        let operand = self.operand_line(tokens)?;
        Ok(Instruction::Load { negated, operand })
    }

    // ST, STN, S or R, where its word is.
    #[inline(always)]
    fn store(&self, tokens: &mut Tokens, store: Store, room: bool) -> Result<Instruction, Stop>
        requires { lead_at self.now tokens.old ≡ lead.Reserved (word.Store store) }
        ensures reads { IfOk result (λ i. Reads (SpellsRoomy self.now room) tokens.old i
            tokens.new) }
        ensures refused { IfErr result (λ e. RefusesBy (SpellsRoomyBy room)
            self.now tokens.old e) }
        ensures begins { IfErr result (λ e. BreaksOffAs SpellsRoomyOf room self.now tokens.old e) }
        ensures shorter { Shortens tokens.old tokens.new result }
    {
        tokens.advance();
        let target = self.target_line(tokens)?;
        Ok(Instruction::Store { store, target })
    }

    // NOT, where its word is.
    fn negation(&self, tokens: &mut Tokens, room: bool) -> Result<Instruction, Stop>
        requires { lead_at self.now tokens.old ≡ lead.Reserved word.Not }
        ensures reads { IfOk result (λ i. Reads (SpellsRoomy self.now room) tokens.old i
            tokens.new) }
        ensures refused { IfErr result (λ e. RefusesBy (SpellsRoomyBy room)
            self.now tokens.old e) }
        ensures begins { IfErr result (λ e. BreaksOffAs SpellsRoomyOf room self.now tokens.old e) }
        ensures shorter { Shortens tokens.old tokens.new result }
    {
        tokens.advance();
        self.line_end(tokens)?;
        Ok(Instruction::Not)
    }

    // JMP, JMPC or JMPCN, where its word is.
    fn jump(
        &self,
        tokens: &mut Tokens,
        condition: Condition,
        room: bool,
    ) -> Result<Instruction, Stop>
        requires { lead_at self.now tokens.old ≡ lead.Reserved (word.Jump condition) }
        ensures reads { IfOk result (λ i. Reads (SpellsRoomy self.now room) tokens.old i
            tokens.new) }
        ensures refused { IfErr result (λ e. RefusesBy (SpellsRoomyBy room)
            self.now tokens.old e) }
        ensures begins { IfErr result (λ e. BreaksOffAs SpellsRoomyOf room self.now tokens.old e) }
        ensures shorter { Shortens tokens.old tokens.new result }
    {
        tokens.advance();
        let label = self.name_line(tokens)?;
        Ok(Instruction::Jump { condition, label })
    }

    // RET, RETC or RETCN, where its word is.
    fn leave(
        &self,
        tokens: &mut Tokens,
        condition: Condition,
        room: bool,
    ) -> Result<Instruction, Stop>
        requires { lead_at self.now tokens.old ≡ lead.Reserved (word.Return condition) }
        ensures reads { IfOk result (λ i. Reads (SpellsRoomy self.now room) tokens.old i
            tokens.new) }
        ensures refused { IfErr result (λ e. RefusesBy (SpellsRoomyBy room)
            self.now tokens.old e) }
        ensures begins { IfErr result (λ e. BreaksOffAs SpellsRoomyOf room self.now tokens.old e) }
        ensures shorter { Shortens tokens.old tokens.new result }
    {
        tokens.advance();
        self.line_end(tokens)?;
        Ok(Instruction::Return { condition })
    }

    // CAL, CALC or CALCN, where its word is.
    fn call(
        &self,
        tokens: &mut Tokens,
        condition: Condition,
        room: bool,
    ) -> Result<Instruction, Stop>
        requires { lead_at self.now tokens.old ≡ lead.Reserved (word.Call condition) }
        ensures reads { IfOk result (λ i. Reads (SpellsRoomy self.now room) tokens.old i
            tokens.new) }
        ensures refused { IfErr result (λ e. RefusesBy (SpellsRoomyBy room)
            self.now tokens.old e) }
        ensures begins { IfErr result (λ e. BreaksOffAs SpellsRoomyOf room self.now tokens.old e) }
        ensures shorter { Shortens tokens.old tokens.new result }
    {
        tokens.advance();
        let (instance, arguments) = self.called(tokens)?;
        Ok(Instruction::Call {
            condition,
            instance,
            arguments,
        })
    }

    // An operator by its word.
    #[inline(always)]
    fn operate(
        &self,
        tokens: &mut Tokens,
        operator: Operator,
        room: bool,
    ) -> Result<Instruction, Stop>
        requires { lead_at self.now tokens.old ≡ lead.Reserved (word.Operate operator) }
        ensures reads { IfOk result (λ i. Reads (SpellsRoomy self.now room) tokens.old i
            tokens.new) }
        ensures refused { IfErr result (λ e. RefusesBy (SpellsRoomyBy room)
            self.now tokens.old e) }
        ensures begins { IfErr result (λ e. BreaksOffAs SpellsRoomyOf room self.now tokens.old e) }
        ensures shorter { Shortens tokens.old tokens.new result }
    {
        tokens.advance();
        self.work(tokens, operator, room)
    }

    // Whether the letter N is at the front, beginning at this byte. It is taken if it does.
    fn eat_n(&self, tokens: &mut Tokens, at: u32) -> bool
        ensures eaten { Eats (TheLetterN self.now at) tokens.old result tokens.new }
        ensures shorter { length tokens.new ≤ length tokens.old }
    {
        let Some(token) = tokens.first() else {
            return false;
        };
        let Kind::Word = token.kind else {
            return false;
        };
        if token.start != at || !self.is_n(&token) {
            return false;
        }
        tokens.advance();
        true
    }

    // `&` or `&N`, where the sign is.
    fn shortly(&self, tokens: &mut Tokens, room: bool) -> Result<Instruction, Stop>
        requires { lead_at self.now tokens.old ≡ lead.Sign Ampersand }
        ensures reads { IfOk result (λ i. Reads (SpellsRoomy self.now room) tokens.old i
            tokens.new) }
        ensures refused { IfErr result (λ e. RefusesBy (SpellsRoomyBy room)
            self.now tokens.old e) }
        ensures begins { IfErr result (λ e. BreaksOffAs SpellsRoomyOf room self.now tokens.old e) }
        ensures shorter { Shortens tokens.old tokens.new result }
    {
        let Some(sign) = tokens.first() else {
            return Err(tokens.outside());
        };
        tokens.advance();
        let negated = self.eat_n(tokens, sign.end);
        let operator = Operator::Logic {
            logic: Logic::Conjunction,
            negated,
        };
        self.work(tokens, operator, room)
    }

    // `)`, where it is.
    fn evaluation(&self, tokens: &mut Tokens, room: bool) -> Result<Instruction, Stop>
        requires { lead_at self.now tokens.old ≡ lead.Sign CloseParenthesis }
        ensures reads { IfOk result (λ i. Reads (SpellsRoomy self.now room) tokens.old i
            tokens.new) }
        ensures refused { IfErr result (λ e. RefusesBy (SpellsRoomyBy room)
            self.now tokens.old e) }
        ensures begins { IfErr result (λ e. BreaksOffAs SpellsRoomyOf room self.now tokens.old e) }
        ensures shorter { Shortens tokens.old tokens.new result }
    {
        tokens.advance();
        self.line_end(tokens)?;
        Ok(Instruction::Evaluate)
    }

    // A function by its name, where a name is.
    fn invocation(&self, tokens: &mut Tokens, room: bool) -> Result<Instruction, Stop>
        requires { lead_at self.now tokens.old ≡ lead.Name }
        ensures reads { IfOk result (λ i. Reads (SpellsRoomy self.now room) tokens.old i
            tokens.new) }
        ensures refused { IfErr result (λ e. RefusesBy (SpellsRoomyBy room)
            self.now tokens.old e) }
        ensures begins { IfErr result (λ e. BreaksOffAs SpellsRoomyOf room self.now tokens.old e) }
        ensures shorter { Shortens tokens.old tokens.new result }
    {
        let function = self.named(tokens)?;
        let operands = self.operands(tokens)?;
        Ok(Instruction::Invoke { function, operands })
    }

    // An instruction by its word, where the word is.
    #[inline(always)]
    fn worded(&self, tokens: &mut Tokens, keyword: Keyword, room: bool) -> Result<Instruction, Stop>
        requires { lead_at self.now tokens.old ≡ lead.Reserved keyword }
        ensures reads { IfOk result (λ i. Reads (SpellsRoomy self.now room) tokens.old i
            tokens.new) }
        ensures refused { IfErr result (λ e. RefusesBy (SpellsRoomyBy room)
            self.now tokens.old e) }
        ensures begins { IfErr result (λ e. BreaksOffAs SpellsRoomyOf room self.now tokens.old e) }
        ensures shorter { Shortens tokens.old tokens.new result }
    {
        match keyword {
            Keyword::Load { negated } => self.load(tokens, negated, room),
            Keyword::Store(store) => self.store(tokens, store, room),
            Keyword::Not => self.negation(tokens, room),
            Keyword::Operate(operator) => self.operate(tokens, operator, room),
            Keyword::Jump(condition) => self.jump(tokens, condition, room),
            Keyword::Return(condition) => self.leave(tokens, condition, room),
            Keyword::Call(condition) => self.call(tokens, condition, room),
            _ => Err(tokens.outside()),
        }
    }

    // An instruction by its sign, where the sign is.
    fn signed(&self, tokens: &mut Tokens, sign: Sign, room: bool) -> Result<Instruction, Stop>
        requires { lead_at self.now tokens.old ≡ lead.Sign sign }
        ensures reads { IfOk result (λ i. Reads (SpellsRoomy self.now room) tokens.old i
            tokens.new) }
        ensures refused { IfErr result (λ e. RefusesBy (SpellsRoomyBy room)
            self.now tokens.old e) }
        ensures begins { IfErr result (λ e. BreaksOffAs SpellsRoomyOf room self.now tokens.old e) }
        ensures shorter { Shortens tokens.old tokens.new result }
    {
        match sign {
            Sign::Ampersand => self.shortly(tokens, room),
            Sign::CloseParenthesis => self.evaluation(tokens, room),
            _ => Err(tokens.outside()),
        }
    }

    /// An instruction that begins so, and the end of its line. It may open a parenthesis where there is room.
    #[inline(always)]
    pub fn instruction(
        &self,
        tokens: &mut Tokens,
        lead: Lead,
        room: bool,
    ) -> Result<Instruction, Stop>
        requires { lead ≡ lead_at self.now tokens.old }
        ensures reads { IfOk result (λ i. Reads (SpellsRoomy self.now room) tokens.old i
            tokens.new) }
        ensures refused { IfErr result (λ e. RefusesBy (SpellsRoomyBy room)
            self.now tokens.old e) }
        ensures begins { IfErr result (λ e. BreaksOffAs SpellsRoomyOf room self.now tokens.old e) }
        ensures shorter { Shortens tokens.old tokens.new result }
    {
        match lead {
            Lead::Name => self.invocation(tokens, room),
            Lead::Reserved(keyword) => self.worded(tokens, keyword, room),
            Lead::Sign(sign) => self.signed(tokens, sign, room),
            _ => Err(tokens.outside()),
        }
    }
}
