// What the words of `serve` ask for.

ghost use Rattle.std.specs.Prelude.{◌≡◌, ◌↔◌, List, IfSome, IsNone, IsTrue, ℕ, codes, map, string_bytes};
ghost use Rattle.cli_host.specs.Servings.{Give, GiveFirst, GiveValue, GiveWord, Serves, Taken, TakesToServe, given_of, nothing_taken, taken_of};
ghost use Rattle.cli_host.specs.declared.serving.Serving.{Serving};

use crate::request::{FROM, TRACE, is_option, is_same};

/// The option of `serve` that has the disk write each line of the trace.
pub const SYNC: &str = "--sync";

/// What `serve` takes: names of files.
#[derive(Clone, Copy)]
pub struct Serving<'w> {
    pub file: &'w str,
    /// Where the events are written, if they are.
    pub trace: Option<Tracing<'w>>,
}

/// The trace that `serve` writes.
#[derive(Clone, Copy)]
pub struct Tracing<'w> {
    pub name: &'w str,
    /// The trace with whose last state the group begins, if it goes on: `None` from the opening.
    pub from: Option<&'w str>,
    /// Whether each line waits for the disk.
    pub sync: bool,
}

/// What words ask `serve` for, if they do: of words as `read_words` leaves them.
pub fn asked_to_serve(words: &[String]) -> Option<Serving<'_>>
    ensures found { IfSome result (Serves (map string_bytes words.now)) }
    ensures none { IsNone result → (serving : Serving)
        → Serves (map string_bytes words.now) serving → ⊥ }
{
    let (name, rest) = words.split_first()?;
    if !is_serve(name) {
        return None;
    }
    serving_given(rest)
}

/// Whether a word is the command `serve`.
pub fn is_serve(word: &str) -> bool
    ensures { IsTrue result ↔ (word.now ≡ codes "serve") }
{
    word == "serve"
}

// What `serve` is asked for by the words after it.
fn serving_given(rest: &[String]) -> Option<Serving<'_>>
    ensures some { IfSome result (TakesToServe (map string_bytes rest.now)) }
    ensures none { IsNone result → (serving : Serving)
        → TakesToServe (map string_bytes rest.now) serving → ⊥ }
{
    let given = words_given(rest)?;
    given.serving()
}

// What the words after `serve` give, so far as they are read.
#[derive(Clone, Copy)]
struct Given<'w> {
    file: Option<&'w str>,
    from: Option<&'w str>,
    trace: Option<&'w str>,
    sync: bool,
}

// What is given with the first words, and those after them.
#[derive(Clone, Copy)]
struct GivenMore<'w> {
    given: Given<'w>,
    rest: &'w [String],
}

impl<'w> Given<'w> {
    // What `serve` is asked for, where that has FILE, and a trace beside `--from OLD` and `--sync`.
    fn serving(self) -> Option<Serving<'w>>
        ensures some { IfSome result (λ serving. taken_of serving ≡ given_of self.entry) }
        ensures none { IsNone result → (serving : Serving)
            → taken_of serving ≡ given_of self.entry → ⊥ }
    {
        let file = self.file?;
        match self.trace {
            Some(name) => Some(Serving {
                file,
                trace: Some(Tracing {
                    name,
                    from: self.from,
                    sync: self.sync,
                }),
            }),
            None if self.sync => None,
            None if self.from.is_some() => None,
            None => Some(Serving { file, trace: None }),
        }
    }

    // What was given and a word alone, if it gives something new.
    fn with_word(self, word: &'w str) -> Option<Given<'w>>
        ensures some { IfSome result (λ next. GiveWord word.now (given_of self.entry)
            (given_of next)) }
        ensures none { IsNone result → (next : Taken)
            → GiveWord word.now (given_of self.entry) next → ⊥ }
    {
        if is_same(word, SYNC) {
            if self.sync {
                return None;
            }
            return Some(Given { sync: true, ..self });
        }
        if is_option(word) {
            return None;
        }
        match self.file {
            Some(_) => None,
            None => Some(Given {
                file: Some(word),
                ..self
            }),
        }
    }

    // What was given and an option with its value, if they give something new.
    fn with_value(self, option: &str, value: &'w str) -> Option<Given<'w>>
        ensures some { IfSome result (λ next. GiveValue option.now value.now
            (given_of self.entry) (given_of next)) }
        ensures none { IsNone result → (next : Taken)
            → GiveValue option.now value.now (given_of self.entry) next → ⊥ }
    {
        if is_option(value) {
            return None;
        }
        if is_same(option, FROM) {
            return match self.from {
                Some(_) => None,
                None => Some(Given {
                    from: Some(value),
                    ..self
                }),
            };
        }
        if !is_same(option, TRACE) {
            return None;
        }
        match self.trace {
            Some(_) => None,
            None => Some(Given {
                trace: Some(value),
                ..self
            }),
        }
    }
}

// What words give.
fn words_given(words: &[String]) -> Option<Given<'_>>
    ensures some { IfSome result (λ given. Give (map string_bytes words.now) nothing_taken
        (given_of given)) }
    ensures only { IfSome result (λ given. (after : Taken)
        → Give (map string_bytes words.now) nothing_taken after → after ≡ given_of given) }
    ensures none { IsNone result → (after : Taken)
        → Give (map string_bytes words.now) nothing_taken after → ⊥ }
{
    let mut given = Given {
        file: None,
        from: None,
        trace: None,
        sync: false,
    };
    let mut rest = words;
    'words: while !rest.is_empty() {
        let more = first_given(given, rest)?;
        given = more.given;
        rest = more.rest;
    }
    Some(given)
}

// What the first words give beside what is given.
fn first_given<'w>(given: Given<'w>, words: &'w [String]) -> Option<GivenMore<'w>>
    ensures some { IfSome result (λ more. GiveFirst (map string_bytes words.now)
        (given_of given.entry) (given_of more.given) (map string_bytes more.rest.now)) }
    ensures none { IsNone result → (next : Taken) (rest : List (List ℕ))
        → GiveFirst (map string_bytes words.now) (given_of given.entry) next rest → ⊥ }
{
    let (word, rest) = words.split_first()?;
    if let Some(next) = given.with_word(word) {
        return Some(GivenMore { given: next, rest });
    }
    let (value, rest) = rest.split_first()?;
    let next = given.with_value(word, value)?;
    Some(GivenMore { given: next, rest })
}
