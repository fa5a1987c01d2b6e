// Lists of variables (IEC 61131-3:2003, 2.4.3).

ghost use Rattle.std.specs.Prelude.{◌<◌, IfOk, IfErr};
ghost use Rattle.il_syntax.specs.Grammar.{AfterLines, No, TheWord, SpellsDeclaration, SpellsExternal, SpellsList, SpellsFilledList, SpellsOptionalList, skip_line_ends};
ghost use Rattle.il_syntax.specs.declared.keyword.Keyword.TheVariants as word;
ghost use Rattle.il_syntax_laws.specs.GoesOn.{always};
ghost use Rattle.load_lines.specs.Reads.{Reads, Refuses, Stands, Misses, Comes, BreaksOff, NamesFirst, Shortens};
ghost use Rattle.load_lines.specs.declared.stop.Stop.TheVariants.{Memory};
ghost use Rattle.load_tree.specs.Ahead.{RefusesAhead, MissesAhead};
ghost use Rattle.load_tree.specs.Lists.{SpellsFull, SpellsExternalsInside};

use base_lists::Items;
use il_syntax::keyword::Keyword;
use il_syntax::token::Sign;
use il_syntax::tree::Declaration;
use load_lines::{Source, Stop, Tokens};

/// Whether the word comes next, after any line ends.
pub fn comes(source: &Source, tokens: &Tokens, keyword: Keyword) -> bool
    ensures comes { Comes (TheWord source.now keyword) tokens.now result }
{
    let mut ahead = tokens.ahead();
    ahead.skip_lines();
    source.eat_word(&mut ahead, keyword)
}

/// A list of this word that is not there.
pub fn no_list(source: &Source, tokens: &Tokens, keyword: Keyword) -> Result<(), Stop>
    ensures reads { IfOk result (λ _. Stands (No (AfterLines (TheWord source.now keyword)))
        tokens.now tokens.now) }
    ensures refused { IfErr result (λ e. MissesAhead
        (λ text. No (AfterLines (TheWord text keyword)))
        source.now tokens.now e) }
    ensures first { IfErr result (λ e. NamesFirst (skip_line_ends tokens.now) e) }
{
    if comes(source, tokens, keyword) {
        let mut ahead = tokens.ahead();
        ahead.skip_lines();
        return Err(ahead.outside());
    }
    Ok(())
}

// A list of this word.
fn list(source: &Source, tokens: &mut Tokens, keyword: Keyword) -> Result<Items<Declaration>, Stop>
    ensures reads { IfOk result (λ ds. Reads
        (SpellsList source.now keyword (SpellsDeclaration source.now)) tokens.old ds tokens.new) }
    ensures refused { IfErr result (λ e. RefusesAhead
        (λ text. SpellsList text keyword (SpellsDeclaration text)) source.now tokens.old e) }
    ensures begins { IfErr result (λ e. BreaksOff always (λ text. SpellsList text keyword
        (SpellsDeclaration text)) source.now tokens.old e) }
{
    tokens.skip_lines();
    source.word(tokens, keyword)?;
    tokens.skip_lines();
    Ok(source.declarations(tokens)?)
}

/// A list of this word, with one declaration at least.
pub fn full_list(
    source: &Source,
    tokens: &mut Tokens,
    keyword: Keyword,
) -> Result<Items<Declaration>, Stop>
    ensures reads { IfOk result (λ ds. Reads (SpellsFull source.now keyword) tokens.old ds
        tokens.new) }
    ensures refused { IfErr result (λ e. RefusesAhead
        (λ text. SpellsFull text keyword) source.now tokens.old e) }
    ensures begins { IfErr result (λ e. BreaksOff always (λ text. SpellsFull text keyword)
        source.now tokens.old e) }
{
    tokens.skip_lines();
    source.word(tokens, keyword)?;
    tokens.skip_lines();
    if source.word_stands(tokens, Keyword::EndVar) {
        return Err(tokens.outside());
    }
    Ok(source.declarations(tokens)?)
}

/// A list of this word, which may be missing, and isn't empty.
pub fn filled_list(
    source: &Source,
    tokens: &mut Tokens,
    keyword: Keyword,
) -> Result<Items<Declaration>, Stop>
    ensures reads { IfOk result (λ ds. Reads (SpellsFilledList source.now keyword) tokens.old ds
        tokens.new) }
    ensures refused { IfErr result (λ e. RefusesAhead
        (λ text. SpellsFilledList text keyword) source.now tokens.old e) }
    ensures begins { IfErr result (λ e. BreaksOff always (λ text. SpellsFilledList text keyword)
        source.now tokens.old e) }
{
    if !comes(source, tokens, keyword) {
        return Ok(Items::new(source.alloc()));
    }
    Ok(full_list(source, tokens, keyword)?)
}

/// A list of this word, which may be missing, and may be empty.
pub fn optional_list(
    source: &Source,
    tokens: &mut Tokens,
    keyword: Keyword,
) -> Result<Items<Declaration>, Stop>
    ensures reads { IfOk result (λ ds. Reads
        (SpellsOptionalList source.now keyword (SpellsDeclaration source.now)) tokens.old ds
        tokens.new) }
    ensures refused { IfErr result (λ e. RefusesAhead
        (λ text. SpellsOptionalList text keyword (SpellsDeclaration text))
        source.now tokens.old e) }
    ensures begins { IfErr result (λ e. BreaksOff always (λ text. SpellsOptionalList text keyword
        (SpellsDeclaration text)) source.now tokens.old e) }
{
    if !comes(source, tokens, keyword) {
        return Ok(Items::new(source.alloc()));
    }
    Ok(list(source, tokens, keyword)?)
}

// A name, its type and a semicolon, as a declaration of one name without an initial value.
fn external(source: &Source, tokens: &mut Tokens) -> Result<Declaration, Stop>
    ensures reads { IfOk result (λ d. Reads (SpellsExternal source.now) tokens.old d tokens.new) }
    ensures refused { IfErr result (λ e. Refuses SpellsExternal source.now tokens.old e) }
    ensures begins { IfErr result (λ e. BreaksOff always SpellsExternal source.now tokens.old e) }
    ensures shorter { Shortens tokens.old tokens.new result }
{
    let name = source.named(tokens)?;
    tokens.skip_lines();
    source.sign(tokens, Sign::Colon)?;
    tokens.skip_lines();
    let declared = source.written_type(tokens)?;
    tokens.skip_lines();
    source.sign(tokens, Sign::Semicolon)?;
    let mut names = Items::new(source.alloc());
    names.push(name)?;
    Ok(Declaration {
        names,
        declared,
        initial: None,
    })
}

// External declarations, and END_VAR.
fn externals_inside(source: &Source, tokens: &mut Tokens) -> Result<Items<Declaration>, Stop>
    ensures reads { IfOk result (λ ds. Reads (SpellsExternalsInside source.now) tokens.old ds
        tokens.new) }
    ensures refused { IfErr result (λ e. Refuses SpellsExternalsInside source.now tokens.old e) }
    ensures begins { IfErr result (λ e. BreaksOff always SpellsExternalsInside source.now tokens.old
        e) }
{
    let mut externals = Items::new(source.alloc());
    'externals: while !source.eat_word(tokens, Keyword::EndVar) {
        let external = external(source, tokens)?;
        externals.push(external)?;
        tokens.skip_lines();
    }
    Ok(externals)
}

// A list of externals.
fn external_list(source: &Source, tokens: &mut Tokens) -> Result<Items<Declaration>, Stop>
    ensures reads { IfOk result (λ ds. Reads
        (SpellsList source.now word.VarExternal (SpellsExternal source.now)) tokens.old ds
        tokens.new) }
    ensures refused { IfErr result (λ e. RefusesAhead
        (λ text. SpellsList text word.VarExternal (SpellsExternal text)) source.now tokens.old e) }
    ensures begins { IfErr result (λ e. BreaksOff always (λ text. SpellsList text word.VarExternal
        (SpellsExternal text)) source.now tokens.old e) }
{
    tokens.skip_lines();
    source.word(tokens, Keyword::VarExternal)?;
    tokens.skip_lines();
    Ok(externals_inside(source, tokens)?)
}

/// The externals of a program, which may be missing.
pub fn externals(source: &Source, tokens: &mut Tokens) -> Result<Items<Declaration>, Stop>
    ensures reads { IfOk result (λ ds. Reads
        (SpellsOptionalList source.now word.VarExternal (SpellsExternal source.now)) tokens.old ds
        tokens.new) }
    ensures refused { IfErr result (λ e. RefusesAhead
        (λ text. SpellsOptionalList text word.VarExternal (SpellsExternal text))
        source.now tokens.old e) }
    ensures begins { IfErr result (λ e. BreaksOff always (λ text. SpellsOptionalList text
        word.VarExternal (SpellsExternal text)) source.now tokens.old e) }
{
    if !comes(source, tokens, Keyword::VarExternal) {
        return Ok(Items::new(source.alloc()));
    }
    Ok(external_list(source, tokens)?)
}
