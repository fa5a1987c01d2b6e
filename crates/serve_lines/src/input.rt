// Lines that come in.

ghost use Rattle.std.specs.Prelude.{◌≡◌, ◌≤◌, ◌∷◌, [], vec_capacity};
ghost use Rattle.serve_lines.specs.Coming.{ByteComes, LineComes};

use std::io::{ErrorKind, Read};

// What came: a byte, the end of the input, or an error of the reader.
#[derive(Clone, Copy)]
enum NextByte {
    Of(u8),
    End,
    Failed,
}

/// How a line came: with its line feed; the input ended first; it is longer than a line may be; or the reader failed.
#[derive(Clone, Copy, Debug)]
pub enum Came {
    Whole,
    Ended,
    TooLong,
    Failed,
}

// The most bytes of a line, without its line feed.
const MOST: usize = 128;

// The next byte. A read that a signal interrupts is tried again.
fn next_byte<R: Read>(reader: &mut R) -> NextByte
    ensures { ByteComes result (R.remaining reader.old) (R.remaining reader.new) }
{
    let mut byte = [0u8; 1];
    'tries: for _try in 0..u64::MAX {
        match reader.read(&mut byte) {
            Ok(0) => return NextByte::End,
            Ok(_) => return NextByte::Of(byte[0]),
            Err(error) => {
                if error.kind() != ErrorKind::Interrupted {
                    return NextByte::Failed;
                }
            }
        }
    }
    NextByte::Failed
}

/// The next line, without its line feed, into room for it.
pub fn next_line<R: Read>(reader: &mut R, line: &mut Vec<u8>) -> Came
    requires room { 128 ≤ vec_capacity line.old }
    ensures comes { LineComes result (R.remaining reader.old) (R.remaining reader.new)
        line.new.items }
    ensures room { 128 ≤ vec_capacity line.new }
{
    line.clear();
    'bytes: loop {
        match next_byte(reader) {
            NextByte::Of(b'\n') => return Came::Whole,
            NextByte::Of(byte) => {
                if line.len() >= MOST {
                    return Came::TooLong;
                }
                line.push_reserved(byte);
            }
            NextByte::End => return Came::Ended,
            NextByte::Failed => return Came::Failed,
        }
    }
}
