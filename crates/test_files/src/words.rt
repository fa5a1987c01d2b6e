// The words of a command line.

use std::alloc::{AllocError, Global};

/// The words of a line. Blanks part them, and what is between two `"` is one word with its
/// blanks: `""` is an empty word.
pub fn words_of(alloc: Global, line: &str) -> Result<Vec<String>, AllocError> {
    let mut words = Vec::new(alloc);
    let mut quoted = false;
    for piece in line.split('"') {
        if quoted {
            words.push(String::from_str(alloc, piece)?)?;
        } else {
            add_words(alloc, &mut words, piece)?;
        }
        quoted = !quoted;
    }
    Ok(words)
}

fn add_words(alloc: Global, words: &mut Vec<String>, text: &str) -> Result<(), AllocError> {
    for word in text.split_whitespace() {
        words.push(String::from_str(alloc, word)?)?;
    }
    Ok(())
}
