// What is below a fault that names a word or a file.

ghost use Rattle.std.specs.Prelude.{◌≡◌, IfOk};
ghost use Rattle.cli_messages.specs.Notices.{word_notice, file_notice, plain_notice};

use crate::place::{put_name, put_quoted};
use std::alloc::{AllocError, Global};

/// What is wrong with a word of the command line.
pub fn word_notice(alloc: Global, word: &str, sentence: &str) -> Result<Vec<u8>, AllocError>
    ensures { IfOk result (λ text. text.items ≡ word_notice word.now sentence.now) }
{
    let mut text = Vec::new(alloc);
    put_quoted(&mut text, word.as_bytes())?;
    text.extend_from_slice(b": ")?;
    text.extend_from_slice(sentence.as_bytes())?;
    text.extend_from_slice(b"\n")?;
    Ok(text)
}

/// What is wrong with the file of a name.
pub fn file_notice(alloc: Global, name: &str, sentence: &str) -> Result<Vec<u8>, AllocError>
    ensures { IfOk result (λ text. text.items ≡ file_notice name.now sentence.now) }
{
    let mut text = Vec::new(alloc);
    put_name(&mut text, name)?;
    text.extend_from_slice(b": ")?;
    text.extend_from_slice(sentence.as_bytes())?;
    text.extend_from_slice(b"\n")?;
    Ok(text)
}

/// What is wrong with the words as a whole.
pub fn plain_notice(alloc: Global, sentence: &str) -> Result<Vec<u8>, AllocError>
    ensures { IfOk result (λ text. text.items ≡ plain_notice sentence.now) }
{
    let mut text = Vec::new(alloc);
    text.extend_from_slice(sentence.as_bytes())?;
    text.extend_from_slice(b"\n")?;
    Ok(text)
}
