//! Callers of the library. Three show its use: one only loads texts, one steps a world event by event, and one has two cars in threads of their own. The
//! other two are for tools: calls where memory is refused (`memory`), and presses from several threads (`presses THREADS TIMES`).
#![tactic(auto)]

mod checking;
mod memory;
mod presses;
mod stepping;
mod texts;
mod threads;

use crate::texts::{COUNTS, RUNS_OVER};
use il_syntax::fault::Refusal;
use scan_task::Value;
use std::alloc::Global;
use std::io::Print;
use std::sync::Wait;
use std::thread::Threads;
use std::{env, io};
use threads_station::Closed;

// What the loader found of a text.
fn check<R: Print>(rt: &R, alloc: Global, text: &[u8]) -> io::Result<()> {
    match checking::budgets(alloc, text) {
        Ok(budgets) => println!(rt; "check: budgets {:?}", budgets.as_slice()),
        Err(Refusal::Fault { number, place }) => println!(rt;
            "check: fault {number} at line {}",
            place.line
        ),
        Err(Refusal::Memory) => Err(io::ErrorKind::OutOfMemory.into()),
    }
}

fn number(value: Option<Value>) -> i64 {
    match value {
        Some(Value::Integer(number)) => number,
        _ => -1,
    }
}

// What events left of the text's world.
fn step<R: Print>(rt: &R, alloc: Global, text: &[u8]) -> io::Result<()> {
    let Ok(mut world) = stepping::opened(alloc, text) else {
        return Err(io::ErrorKind::OutOfMemory.into());
    };
    let driven = stepping::drive(&mut world);
    let seen = stepping::read(&world);
    world.release();
    if let Err(fault) = driven {
        return println!(rt; "step: {fault}");
    }
    println!(rt;
        "step: N is {}, LAST is {} at {} ms",
        number(seen.n),
        number(seen.last),
        seen.time
    )
}

// How many entries two cars left.
fn run<R: Print + Threads + Wait + Sync>(rt: &R, alloc: Global, text: &[u8]) -> io::Result<()> {
    let Ok(closed) = threads::run(rt, alloc, text) else {
        return Err(io::ErrorKind::OutOfMemory.into());
    };
    let Closed { verified, book } = closed;
    let entries = book.into_journal();
    verified.release();
    println!(rt; "{} entries of two cars", entries.len())
}

// The three examples.
fn show<R: Print + Threads + Wait + Sync>(rt: &R, alloc: Global) -> io::Result<()> {
    check(rt, alloc, COUNTS)?;
    check(rt, alloc, RUNS_OVER)?;
    step(rt, alloc, COUNTS)?;
    run(rt, alloc, COUNTS)
}

// A word as a number.
fn number_of(word: &str) -> io::Result<u32> {
    match word.parse::<u32>() {
        Ok(number) => Ok(number),
        Err(_) => Err(io::ErrorKind::InvalidInput.into()),
    }
}

// What the words name; without a word all of it.
fn call<R: Print + Threads + Wait + Sync>(
    rt: &R,
    alloc: Global,
    words: &[String],
) -> io::Result<()> {
    match words {
        [] => {
            show(rt, alloc)?;
            memory::call_all(rt, alloc)?;
            presses::press(rt, alloc, 4, 1000)
        }
        [word] if word.as_str() == "memory" => memory::call_all(rt, alloc),
        [word, threads, times] if word.as_str() == "presses" => {
            presses::press(rt, alloc, number_of(threads)?, number_of(times)?)
        }
        _ => Err(io::ErrorKind::InvalidInput.into()),
    }
}

// The words after the program's name.
fn words_of(rt: &HostRuntime) -> io::Result<Vec<String>> {
    Ok(env::args(rt)?.skip(1).collect(rt.alloc())?)
}

fn main(rt: HostRuntime) -> io::Result<()> {
    // Where memory is refused, once more.
    let words = match words_of(&rt) {
        Ok(words) => words,
        Err(_) => words_of(&rt)?,
    };
    call(&rt, rt.alloc(), &words)
}
