// The file of `--calls`: presses and settings, a line each.

ghost use Rattle.std.specs.Prelude.{◌≡◌, ◌≢◌, ◌≤◌, ◌+◌, ◌∷◌, ◌++◌, ◌↔◌, [], ℕ, List, IfSome, IsNone, IfOk, IfErr, OnOk, IsTrue, Bool, Some, length, option_map, slice_index};
ghost use Rattle.std.specs.List.{position_or_len};
ghost use Rattle.cli_host.specs.Requests.{IsNumberTo};
ghost use Rattle.cli_host.specs.Presses.{IsPressOf};
ghost use Rattle.cli_host.specs.CallsFile.{AreCallsOf, AreFaultyLines, AreLineWords, IsCallsFault, IsLine, IsNumberUpTo, IsSetting, Say, feeds, fire_word, greatest_file, is_cut, most_lines, pieces_left, presses_of, settings_of, without_last, words_left};
ghost use Rattle.cli_host.specs.declared.calls.Line.{Line};
ghost use Rattle.cli_host.specs.declared.press.Press.{Press};
ghost use Rattle.cli_host.specs.declared.press.Set.{Set};
ghost use Rattle.cli_host.specs.declared.press.Setting.{Setting};

use crate::press::{MOST_PANELS, Press, Set, Setting};
use crate::request::{is_digits, number_to};
use base_lists::Items;
use std::alloc::{AllocError, Global};
use std::str;

/// The most bytes of the file.
pub const GREATEST_FILE: usize = 4_000_000;

// The most lines of the file.
const MOST_LINES: u32 = 100_000;

/// What the file says: presses and settings, each in the order of its lines.
#[derive(Drop)]
pub struct CallsFile {
    pub presses: Items<Press>,
    pub settings: Items<Setting>,
}

/// Why a text is no such file. Lines count from 1.
#[derive(Clone, Copy)]
pub enum CallsFault {
    /// The first line that says nothing of the kind.
    BadLine { line: u32 },
    /// The line at which there are more than 100,000 lines, or more than 4,000,000 bytes.
    TooMany { line: u32 },
    /// An allocation failed.
    Memory,
}

impl From<AllocError> for CallsFault {
    ghost use Rattle.std.specs.Prelude.{◌≡◌};
    ghost use Rattle.cli_host.specs.declared.calls.CallsFault.TheVariants.{Memory};

    ghost from_gives = { λ _ f. f ≡ Memory };

    fn from(_error: AllocError) -> CallsFault {
        CallsFault::Memory
    }
}

// Where a text is cut.
#[derive(Clone, Copy)]
enum Cut {
    /// At line feeds.
    Feed,
    /// At spaces and tabs.
    Blank,
}

// What a line says.
#[derive(Clone, Copy)]
enum Line {
    /// Nothing, as it is empty or a comment.
    Nothing,
    OfPress(Press),
    OfSetting(Setting),
}

// What a line may name.
#[derive(Clone, Copy)]
struct Bounds {
    rounds: u16,
    floors: u16,
    cars: u8,
}

/// The presses and settings of a text, for a run of so many rounds of a group of so many floors and cars. A line is one of these, in words
/// between spaces and tabs:
///
///     ROUND FROM TO
///     ROUND FROM TO PANEL
///     ROUND FIRE on
///     ROUND FIRE off
///     ROUND LIMIT N
///
/// or it is empty, or its first word begins with `#`. A line feed ends a line, with a carriage return before it or without.
pub fn read_calls(
    alloc: Global,
    text: &[u8],
    rounds: u16,
    floors: u16,
    cars: u8,
) -> Result<CallsFile, CallsFault>
    ensures ok { IfOk result (λ file. AreCallsOf rounds floors cars text.now file.presses
        file.settings) }
    ensures err { IfErr result (IsCallsFault rounds floors cars text.now) }
{
    if text.len() > GREATEST_FILE {
        let (within, _) = text.split_at(GREATEST_FILE);
        return Err(CallsFault::TooMany {
            line: feeds(within) + 1,
        });
    }
    let bounds = Bounds {
        rounds,
        floors,
        cars,
    };
    read_lines(alloc, without_last(b'\n', text), bounds)
}

// How many line feeds there are.
fn feeds(text: &[u8]) -> u32
    requires { length text.now ≤ greatest_file }
    ensures is { result ≡ feeds text.now }
    ensures few { result ≤ greatest_file }
{
    let mut count = 0;
    'bytes: for byte in text {
        if *byte == b'\n' {
            count += 1;
        }
    }
    count
}

// A text without this byte at its end.
fn without_last(byte: u8, text: &[u8]) -> &[u8]
    ensures { result.now ≡ without_last byte text.now }
{
    match text.split_last() {
        Some((last, front)) if *last == byte => front,
        _ => text,
    }
}

// The presses and settings of lines.
fn read_lines(alloc: Global, text: &[u8], bounds: Bounds) -> Result<CallsFile, CallsFault>
    ensures ok { IfOk result (λ file. (length (pieces_left Cut.Feed (Some text.now)) ≤ most_lines)
        × Say bounds.rounds bounds.floors bounds.cars (pieces_left Cut.Feed (Some text.now))
        file.presses file.settings) }
    ensures err { IfErr result (AreFaultyLines bounds.rounds bounds.floors bounds.cars
        (pieces_left Cut.Feed (Some text.now))) }
{
    let mut file = CallsFile {
        presses: Items::new(alloc),
        settings: Items::new(alloc),
    };
    let mut rest = Some(text);
    let mut number = 1;
    'lines: while let Some(left) = rest {
        let (line, behind) = first_piece(Cut::Feed, left);
        if number > MOST_LINES {
            return Err(CallsFault::TooMany { line: number });
        }
        let Some(said) = line_of(line, bounds) else {
            return Err(CallsFault::BadLine { line: number });
        };
        file.add(said)?;
        rest = behind;
        number += 1;
    }
    Ok(file)
}

impl CallsFile {
    // Adds what a line says.
    fn add(&mut self, said: Line) -> Result<(), AllocError>
        ensures presses { OnOk result (self.new.presses ≡ self.old.presses ++ presses_of said) }
        ensures settings { OnOk result (self.new.settings
            ≡ self.old.settings ++ settings_of said) }
    {
        match said {
            Line::Nothing => Ok(()),
            Line::OfPress(press) => self.presses.push(press),
            Line::OfSetting(setting) => self.settings.push(setting),
        }
    }
}

// Whether a text is cut at a byte.
fn is_cut(cut: Cut, byte: u8) -> bool
    ensures { result ≡ is_cut cut byte }
{
    match cut {
        Cut::Feed => byte == b'\n',
        Cut::Blank => byte == b' ' || byte == b'\t',
    }
}

// How many bytes come before the first cut.
fn first_cut(cut: Cut, text: &[u8]) -> usize
    ensures is { result ≡ position_or_len (is_cut cut) text.now }
    ensures within { result ≤ length text.now }
{
    let mut place = 0;
    'bytes: for byte in text {
        if is_cut(cut, *byte) {
            return place;
        }
        place += 1;
    }
    place
}

// What comes before the first cut, and what is left after it.
fn first_piece(cut: Cut, text: &[u8]) -> (&[u8], Option<&[u8]>)
    ensures { pieces_left cut (Some text.now)
        ≡ result.0.now ∷ pieces_left cut (option_map (λ left. left.now) result.1) }
{
    let (piece, rest) = text.split_at(first_cut(cut, text));
    match rest.split_first() {
        Some((_, left)) => (piece, Some(left)),
        None => (piece, None),
    }
}

// The next word of what is left of a line, and what is left after it.
fn next_word(left: Option<&[u8]>) -> Option<(&[u8], Option<&[u8]>)>
    ensures some { IfSome result (λ parts. words_left (option_map (λ left. left.now) left.entry)
        ≡ parts.0.now ∷ words_left (option_map (λ left. left.now) parts.1)) }
    ensures none { IsNone result → words_left (option_map (λ left. left.now) left.entry) ≡ [] }
{
    let mut rest = left;
    'pieces: while let Some(text) = rest {
        let (piece, behind) = first_piece(Cut::Blank, text);
        if !piece.is_empty() {
            return Some((piece, behind));
        }
        rest = behind;
    }
    None
}

// What a line says.
fn line_of(text: &[u8], bounds: Bounds) -> Option<Line>
    ensures some { IfSome result (IsLine bounds.rounds bounds.floors bounds.cars text.now) }
    ensures none { IsNone result → (said : Line)
        → IsLine bounds.rounds bounds.floors bounds.cars text.now said → ⊥ }
{
    let Some((first, rest)) = next_word(Some(without_last(b'\r', text))) else {
        return Some(Line::Nothing);
    };
    if begins_comment(first) {
        return Some(Line::Nothing);
    }
    said_behind(first, rest, bounds)
}

// Whether a word begins a comment.
fn begins_comment(word: &[u8]) -> bool
    ensures { IsTrue result ↔ (slice_index word.now 0 ≡ 35) }
{
    matches!(word, [b'#', ..])
}

// What a line says by its first word, which begins no comment, and what is left after that.
fn said_behind(first: &[u8], rest: Option<&[u8]>, bounds: Bounds) -> Option<Line>
    requires { slice_index first.now 0 ≢ 35 }
    ensures some { IfSome result (AreLineWords bounds.rounds bounds.floors bounds.cars
        (first.now ∷ words_left (option_map (λ left. left.now) rest.entry))) }
    ensures none { IsNone result → (said : Line)
        → AreLineWords bounds.rounds bounds.floors bounds.cars
        (first.now ∷ words_left (option_map (λ left. left.now) rest.entry)) said → ⊥ }
{
    let (second, rest) = next_word(rest)?;
    let (third, rest) = next_word(rest)?;
    let Some((fourth, rest)) = next_word(rest) else {
        return said_by_three(first, second, third, bounds);
    };
    if next_word(rest).is_some() {
        return None;
    }
    said_by_four(first, second, third, fourth, bounds)
}

// What three words say.
fn said_by_three(first: &[u8], second: &[u8], third: &[u8], bounds: Bounds) -> Option<Line>
    requires { slice_index first.now 0 ≢ 35 }
    ensures some { IfSome result (AreLineWords bounds.rounds bounds.floors bounds.cars
        (first.now ∷ second.now ∷ third.now ∷ [])) }
    ensures none { IsNone result → (said : Line)
        → AreLineWords bounds.rounds bounds.floors bounds.cars
        (first.now ∷ second.now ∷ third.now ∷ []) said → ⊥ }
{
    let Some(set) = set_of(second, third, bounds.cars) else {
        return Some(Line::OfPress(press_by(first, second, third, 1, bounds)?));
    };
    let round = number_in(bounds.rounds, first)?;
    Some(Line::OfSetting(Setting { round, set }))
}

// What four words say.
fn said_by_four(
    first: &[u8],
    second: &[u8],
    third: &[u8],
    fourth: &[u8],
    bounds: Bounds,
) -> Option<Line>
    requires { slice_index first.now 0 ≢ 35 }
    ensures some { IfSome result (AreLineWords bounds.rounds bounds.floors bounds.cars
        (first.now ∷ second.now ∷ third.now ∷ fourth.now ∷ [])) }
    ensures none { IsNone result → (said : Line)
        → AreLineWords bounds.rounds bounds.floors bounds.cars
        (first.now ∷ second.now ∷ third.now ∷ fourth.now ∷ []) said → ⊥ }
{
    let panel = number_in(MOST_PANELS, fourth)?;
    Some(Line::OfPress(press_by(first, second, third, panel, bounds)?))
}

// The number from 1 to a greatest one that a word spells.
fn number_in(greatest: u16, word: &[u8]) -> Option<u16>
    ensures some { IfSome result (IsNumberTo greatest word.now) }
    ensures none { IsNone result → (number : ℕ) → IsNumberTo greatest word.now number → ⊥ }
{
    match str::from_utf8(word) {
        Ok(text) => number_to(greatest, text),
        Err(_) => None,
    }
}

// The press of these words.
fn press_by(round: &[u8], from: &[u8], to: &[u8], panel: u16, bounds: Bounds) -> Option<Press>
    ensures some { IfSome result (λ press.
        IsPressOf bounds.rounds bounds.floors round.now from.now to.now press
        × (press.panel ≡ panel)) }
    ensures none { IsNone result → (press : Press)
        → IsPressOf bounds.rounds bounds.floors round.now from.now to.now press → ⊥ }
{
    let press = Press {
        round: number_in(bounds.rounds, round)?,
        from: number_in(bounds.floors, from)?,
        to: number_in(bounds.floors, to)?,
        panel,
    };
    if press.from == press.to {
        return None;
    }
    Some(press)
}

// What a name and a value set.
fn set_of(name: &[u8], value: &[u8], cars: u8) -> Option<Set>
    ensures some { IfSome result (IsSetting cars name.now value.now) }
    ensures none { IsNone result → (set : Set) → IsSetting cars name.now value.now set → ⊥ }
{
    if is_word(name, b"FIRE") {
        return Some(Set::Fire(fire_of(value)?));
    }
    if is_word(name, b"LIMIT") {
        return Some(Set::RunLimit(limit_of(cars, value)?));
    }
    None
}

// Whether two words are the same.
fn is_word(word: &[u8], other: &[u8]) -> bool
    ensures { IsTrue result ↔ (word.now ≡ other.now) }
{
    word == other
}

// The state of FIRE that a word names.
fn fire_of(word: &[u8]) -> Option<bool>
    ensures some { IfSome result (λ on. word.now ≡ fire_word on) }
    ensures none { IsNone result → (on : Bool) → word.now ≡ fire_word on → ⊥ }
{
    if is_word(word, b"on") {
        return Some(true);
    }
    if is_word(word, b"off") {
        return Some(false);
    }
    None
}

// The number of cars, from none to all, that a word spells.
fn limit_of(cars: u8, word: &[u8]) -> Option<u8>
    ensures some { IfSome result (IsNumberUpTo cars word.now) }
    ensures none { IsNone result → (number : ℕ) → IsNumberUpTo cars word.now number → ⊥ }
{
    match str::from_utf8(word) {
        Ok(text) => number_up_to(cars, text),
        Err(_) => None,
    }
}

// The number that ASCII digits alone spell, from 0 to a greatest one.
fn number_up_to(greatest: u8, text: &str) -> Option<u8>
    ensures some { IfSome result (IsNumberUpTo greatest text.now) }
    ensures none { IsNone result → (number : ℕ) → IsNumberUpTo greatest text.now number → ⊥ }
{
    if !is_digits(text) {
        return None;
    }
    match text.parse::<u8>() {
        Ok(number) if number <= greatest => Some(number),
        _ => None,
    }
}
