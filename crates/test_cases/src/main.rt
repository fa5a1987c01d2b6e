//! Runs the program on the cases of its standard input, with files in memory, and prints a
//! transcript of its answers. README.md says what each line of the input means.
#![tactic(auto)]

mod cases;

use crate::cases::Cases;
use std::io;
use std::io::{BufRead, BufReader, BufWriter, Write};

fn main(rt: HostRuntime) -> io::Result<()> {
    let alloc = rt.alloc();
    let mut cases = Cases::new(alloc);
    let mut to = BufWriter::new(alloc, io::writer(&rt))?;
    for line in BufReader::new(alloc, rt.reader())?.lines(alloc) {
        cases.take(&rt, &line?, &mut to)?;
    }
    to.flush()
}
