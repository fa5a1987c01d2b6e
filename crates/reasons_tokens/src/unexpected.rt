// What is reported of a token with which no text of the language goes on.

ghost use Rattle.std.specs.Prelude.{◌≡◌, ◌∷◌, ◌++◌, ◌≤◌, ◌==◌, if◌then◌else◌, [], length, map, option_map, take, slice_range, codes, true, None, IfOk, OnOk};
ghost use Rattle.il_syntax.specs.Text.{AreTokens, name_of, upper_case};
ghost use Rattle.il_syntax.specs.declared.token.Kind.TheVariants.{Word};
ghost use Rattle.reasons_tokens.specs.ExpectedKinds.{kind_of, expected_kinds};
ghost use Rattle.reasons_tokens.specs.LeftOut.{word_by, word_of, left_out_lines, named_lines};
ghost use Rattle.reasons_tokens.specs.TokenReasons.{IsOfLanguage, CanStand, CanStandOf, AreToldOfToken, AddsKind, going_on, token_line, token_at, found_line, other_words, expected_line};

use crate::expected::{Expected, kinds};
use crate::expected_search::Search;
use crate::instead::put_instead;
use crate::left_out::{put_named, put_words, token_before};
use crate::parentheses::put_open;
use crate::spelled;
use il_syntax::fault::Refusal;
use il_syntax::token::{Kind, Token};
use il_syntax::tree::Place;
use load_lines::{Source, keyword_of};
use std::alloc::{AllocError, Global};

// How many kinds are reported at most.
const MOST_KINDS: usize = 8;

// Whether a text is one of the language.
fn is_of_language(alloc: Global, text: &[u8]) -> Result<bool, AllocError>
    ensures { IfOk result (λ is. is ≡ true → IsOfLanguage text.now) }
{
    match spelled(alloc, text) {
        Ok(_tree) => Ok(true),
        Err(Refusal::Memory) => Err(AllocError),
        Err(Refusal::Fault { .. }) => Ok(false),
    }
}

// A text up to a place.
fn cut(text: &[u8], offset: usize) -> &[u8]
    ensures { result.now ≡ take offset text.now }
{
    if offset < text.len() {
        &text[..offset]
    } else {
        text
    }
}

// A text, cut before a place, with a token of a kind and a rest.
fn going_on(
    alloc: Global,
    text: &[u8],
    offset: usize,
    kind: &Expected,
    rest: &[u8],
) -> Result<Vec<u8>, AllocError>
    ensures { IfOk result (λ whole. whole.items
        ≡ going_on text.now offset (kind_of kind.now) rest.now) }
{
    let mut whole = Vec::new(alloc);
    whole.extend_from_slice(cut(text, offset))?;
    whole.push(b' ')?;
    whole.extend_from_slice(kind.sample.as_bytes())?;
    whole.push(b' ')?;
    whole.extend_from_slice(rest)?;
    Ok(whole)
}

// Whether nothing follows the end of a text, which has no sample.
fn ends_there(sample: &str, rest: &[u8]) -> bool
    ensures { result ≡ true → sample.now ≡ [] → rest.now ≡ [] }
{
    if sample.is_empty() {
        rest.is_empty()
    } else {
        true
    }
}

// Whether a text of the language goes on from a place with a token of a kind and this rest.
fn spells_with(
    alloc: Global,
    text: &[u8],
    offset: usize,
    kind: &Expected,
    rest: &[u8],
) -> Result<bool, AllocError>
    requires { kind.now.sample.now ≡ [] → rest.now ≡ [] }
    ensures { IfOk result (λ can. can ≡ true → CanStand text.now offset (kind_of kind.now)) }
{
    let whole = going_on(alloc, text, offset, kind, rest)?;
    is_of_language(alloc, &whole)
}

// Whether a kind can be at a place with this rest.
fn stands_with(
    alloc: Global,
    text: &[u8],
    offset: usize,
    kind: &Expected,
    rest: &[u8],
) -> Result<bool, AllocError>
    ensures { IfOk result (λ can. can ≡ true → CanStand text.now offset (kind_of kind.now)) }
{
    if ends_there(kind.sample, rest) {
        spells_with(alloc, text, offset, kind, rest)
    } else {
        Ok(false)
    }
}

// Whether a kind can be at a place, with the rest that a search finds.
fn can_stand(
    alloc: Global,
    text: &[u8],
    offset: usize,
    kind: &Expected,
    search: &mut Search,
) -> Result<bool, AllocError>
    ensures { IfOk result (λ can. can ≡ true → CanStand text.now offset (kind_of kind.now)) }
{
    if search.finds(kind)? {
        stands_with(alloc, text, offset, kind, search.rest())
    } else {
        Ok(false)
    }
}

// Reports a kind after others, where it can be at a place and fewer than eight are reported.
fn push_kind(
    alloc: Global,
    text: &[u8],
    offset: usize,
    kind: &Expected,
    search: &mut Search,
    kinds: &mut Vec<Expected>,
) -> Result<(), AllocError>
    ensures { OnOk result (AddsKind text.now offset kind.now kinds.old.items kinds.new.items) }
{
    if kinds.len() >= MOST_KINDS {
        return Ok(());
    }
    if can_stand(alloc, text, offset, kind, search)? {
        kinds.push(*kind)?;
    }
    Ok(())
}

// The kinds that can be at a place, among some, with a search there.
fn kinds_among(
    alloc: Global,
    text: &[u8],
    offset: usize,
    all: &[Expected],
    search: &mut Search,
) -> Result<Vec<Expected>, AllocError>
    ensures few { IfOk result (λ kinds. length kinds.items ≤ 8) }
    ensures can { IfOk result (λ kinds. CanStandOf text.now offset (map kind_of kinds.items)
        (map kind_of all.now)) }
{
    let mut kinds = Vec::new(alloc);
    'kinds: for kind in all {
        push_kind(alloc, text, offset, kind, search, &mut kinds)?;
    }
    Ok(kinds)
}

// The kinds that can be at a place of a text with these tokens, as far as they are found.
fn kinds_at(
    alloc: Global,
    text: &[u8],
    tokens: &[Token],
    offset: usize,
) -> Result<Vec<Expected>, AllocError>
    ensures few { IfOk result (λ kinds. length kinds.items ≤ 8) }
    ensures can { IfOk result (λ kinds. CanStandOf text.now offset (map kind_of kinds.items)
        expected_kinds) }
{
    let mut search = Search::new(alloc, text, tokens, offset)?;
    kinds_among(alloc, text, offset, kinds(), &mut search)
}

// A text in upper case.
pub(crate) fn in_upper_case(alloc: Global, text: &[u8]) -> Result<Vec<u8>, AllocError>
    ensures { IfOk result (λ upper. upper.items ≡ upper_case text.now) }
{
    let mut upper = Vec::new(alloc);
    upper.extend_from_slice(text)?;
    upper.as_mut_slice().make_ascii_uppercase();
    Ok(upper)
}

// What was found: bytes, and what comes after them.
fn put_shown(lines: &mut Vec<u8>, bytes: &[u8], behind: &[u8]) -> Result<(), AllocError>
    ensures { OnOk result (lines.new.items ≡ lines.old.items
        ++ (codes "found `" ++ (bytes.now ++ behind.now))) }
{
    lines.extend_from_slice(b"found `")?;
    lines.extend_from_slice(bytes)?;
    lines.extend_from_slice(behind)
}

// A word, and whether it is a reserved one.
fn put_word(lines: &mut Vec<u8>, source: &Source, token: &Token) -> Result<(), AllocError>
    requires { token.now.kind ≡ Word }
    ensures { OnOk result (lines.new.items ≡ lines.old.items ++ token_line source.now token.now) }
{
    let bytes = source.bytes_of(token);
    match keyword_of(source.spelling(token)) {
        Some(_) => put_shown(lines, bytes, b"`, a reserved word\n"),
        None => put_shown(lines, bytes, b"`\n"),
    }
}

// A token that is no word and no line's end.
fn put_plain(lines: &mut Vec<u8>, source: &Source, token: &Token) -> Result<(), AllocError>
    ensures { OnOk result (lines.new.items ≡ lines.old.items
        ++ (codes "found `" ++ (slice_range source.now token.now.start token.now.end
        ++ codes "`\n"))) }
{
    put_shown(lines, source.bytes_of(token), b"`\n")
}

// A token.
fn put_token(lines: &mut Vec<u8>, source: &Source, token: &Token) -> Result<(), AllocError>
    ensures { OnOk result (lines.new.items ≡ lines.old.items ++ token_line source.now token.now) }
{
    match token.kind {
        Kind::LineEnd => lines.extend_from_slice(b"found the end of the line\n"),
        Kind::Word => put_word(lines, source, token),
        Kind::Number(_) => put_plain(lines, source, token),
        Kind::Typed(_) => put_plain(lines, source, token),
        Kind::Sign(_) => put_plain(lines, source, token),
    }
}

// The token that begins at a place.
pub(crate) fn token_at(tokens: &[Token], offset: u32) -> Option<Token>
    ensures { result ≡ token_at offset tokens.now }
{
    for token in tokens {
        if token.start == offset {
            return Some(*token);
        }
    }
    None
}

// The end of the text, where it is there.
fn put_end(lines: &mut Vec<u8>, text: &[u8], offset: u32) -> Result<(), AllocError>
    ensures { OnOk result (lines.new.items ≡ lines.old.items ++ found_line text.now offset None) }
{
    if text.len() <= offset as usize {
        lines.extend_from_slice(b"found the end of the text\n")
    } else {
        Ok(())
    }
}

// What is at a place.
fn put_found(
    alloc: Global,
    lines: &mut Vec<u8>,
    text: &[u8],
    tokens: &[Token],
    offset: u32,
) -> Result<(), AllocError>
    requires { AreTokens text.now 0 tokens.now }
    ensures { OnOk result (lines.new.items ≡ lines.old.items
        ++ found_line text.now offset (token_at offset tokens.now)) }
{
    let upper = in_upper_case(alloc, text)?;
    let source = Source::new(alloc, text, &upper);
    match token_at(tokens, offset) {
        Some(token) => put_token(lines, &source, &token),
        None => put_end(lines, text, offset),
    }
}

// Kinds after the first.
fn put_others(lines: &mut Vec<u8>, kinds: &[Expected]) -> Result<(), AllocError>
    ensures { OnOk result (lines.new.items ≡ lines.old.items
        ++ other_words (map kind_of kinds.now)) }
{
    'kinds: for kind in kinds {
        put_other(lines, kind)?;
    }
    Ok(())
}

// A kind after the first.
fn put_other(lines: &mut Vec<u8>, kind: &Expected) -> Result<(), AllocError>
    ensures { OnOk result (lines.new.items ≡ lines.old.items
        ++ (codes ", " ++ (kind_of kind.now).words)) }
{
    lines.extend_from_slice(b", ")?;
    lines.extend_from_slice(kind.words.as_bytes())
}

// A piece of text.
fn put(lines: &mut Vec<u8>, piece: &str) -> Result<(), AllocError>
    ensures { OnOk result (lines.new.items ≡ lines.old.items ++ piece.now) }
{
    lines.extend_from_slice(piece.as_bytes())
}

// The first kind.
fn put_first(lines: &mut Vec<u8>, first: &Expected) -> Result<(), AllocError>
    ensures { OnOk result (lines.new.items ≡ lines.old.items
        ++ (codes "expected: " ++ (kind_of first.now).words)) }
{
    put(lines, "expected: ")?;
    put(lines, first.words)
}

// The others, and the end of the line.
fn put_rest(lines: &mut Vec<u8>, others: &[Expected]) -> Result<(), AllocError>
    ensures { OnOk result (lines.new.items ≡ lines.old.items
        ++ (other_words (map kind_of others.now) ++ codes "\n")) }
{
    put_others(lines, others)?;
    lines.extend_from_slice(b"\n")
}

// Kinds, a first one and others.
fn put_kinds(lines: &mut Vec<u8>, first: &Expected, others: &[Expected]) -> Result<(), AllocError>
    ensures { OnOk result (lines.new.items ≡ lines.old.items
        ++ expected_line (kind_of first.now ∷ map kind_of others.now)) }
{
    put_first(lines, first)?;
    put_rest(lines, others)
}

// What could be at the place, if something is known.
fn put_expected(lines: &mut Vec<u8>, kinds: &[Expected]) -> Result<(), AllocError>
    ensures { OnOk result (lines.new.items ≡ lines.old.items
        ++ expected_line (map kind_of kinds.now)) }
{
    match kinds.split_first() {
        Some((first, others)) => put_kinds(lines, first, others),
        None => Ok(()),
    }
}

// The word of a token, in upper case.
fn word<'s>(source: &'s Source<'_>, token: &Token) -> Option<&'s str>
    ensures { option_map (λ w. w.now) result
        ≡ word_by token.now.kind (name_of source.now token.now) }
{
    match token.kind {
        Kind::Word => Some(source.spelling(token)),
        Kind::LineEnd => None,
        Kind::Number(_) => None,
        Kind::Typed(_) => None,
        Kind::Sign(_) => None,
    }
}

// That of a token that may not be there.
pub(crate) fn word_of<'s>(source: &'s Source<'_>, token: &Option<Token>) -> Option<&'s str>
    ensures { option_map (λ w. w.now) result ≡ word_of source.now token.now }
{
    match token {
        Some(token) => word(source, token),
        None => None,
    }
}

// What the language leaves out, of the token at a place and the one before it.
fn put_left_out(
    alloc: Global,
    lines: &mut Vec<u8>,
    text: &[u8],
    tokens: &[Token],
    offset: u32,
) -> Result<(), AllocError>
    requires { AreTokens text.now 0 tokens.now }
    ensures { OnOk result (lines.new.items ≡ lines.old.items
        ++ left_out_lines text.now tokens.now (token_at offset tokens.now) offset) }
{
    let upper = in_upper_case(alloc, text)?;
    let source = Source::new(alloc, text, &upper);
    let before = token_before(tokens, offset);
    let found = token_at(tokens, offset);
    put_words(lines, word_of(&source, &before), word_of(&source, &found))
}

/// Of an unknown name (21) that is a type which the language leaves out.
pub fn put_named_at(
    alloc: Global,
    lines: &mut Vec<u8>,
    text: &[u8],
    tokens: &[Token],
    offset: u32,
) -> Result<(), AllocError>
    requires { AreTokens text.now 0 tokens.now }
    ensures { OnOk result (lines.new.items ≡ lines.old.items
        ++ named_lines text.now (token_at offset tokens.now)) }
{
    let upper = in_upper_case(alloc, text)?;
    let source = Source::new(alloc, text, &upper);
    let found = token_at(tokens, offset);
    put_named(lines, word_of(&source, &found))
}

/// What is reported of a token with which no text of the language goes on (own rule): what is there, at most eight kinds that
/// can be there, each with some rest after it, what the language leaves out, what to write instead, and a parenthesis that is open.
pub fn told(
    alloc: Global,
    text: &[u8],
    tokens: &[Token],
    place: Place,
) -> Result<Vec<u8>, AllocError>
    requires { AreTokens text.now 0 tokens.now }
    ensures { IfOk result (λ lines. AreToldOfToken text.now tokens.now place lines.items) }
{
    let kinds = kinds_at(alloc, text, tokens, place.offset as usize)?;
    let mut lines = Vec::new(alloc);
    put_found(alloc, &mut lines, text, tokens, place.offset)?;
    put_expected(&mut lines, &kinds)?;
    put_left_out(alloc, &mut lines, text, tokens, place.offset)?;
    put_instead(alloc, &mut lines, text, tokens, place)?;
    put_open(alloc, &mut lines, tokens, place)?;
    Ok(lines)
}
