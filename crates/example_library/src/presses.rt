// Presses of one call from panels of one floor, each in a thread of its own. `bench/threads` measures them.

ghost use Rattle.std.specs.Prelude.{◌≡◌, ◌≤◌, All, IfOk};
ghost use Rattle.std.specs.Thread.{IsSync};

use std::alloc::{AllocError, Global};
use std::io::Print;
use std::sync::Wait;
use std::thread::{JoinHandle, Scope, Threads};
use std::{io, thread};
use threads_desk::{Desk, PanelPass, Pressed};

// How many presses were answered so.
#[derive(Clone, Copy)]
struct Answers {
    new: u64,
    already: u64,
}

// Presses the call to floor 2 so often.
fn press_often(desk: &Desk, pass: PanelPass, times: u32) -> Answers
    requires table { pass.table ≡ desk.now.table }
    requires floors { 2 ≤ desk.now.floors }
{
    let mut pass = pass;
    let mut answers = Answers { new: 0, already: 0 };
    'times: for _ in 0..times {
        let (back, answer) = desk.press(pass, 2);
        pass = back;
        match answer {
            Pressed::New => answers.new = answers.new.wrapping_add(1),
            Pressed::Already => answers.already = answers.already.wrapping_add(1),
            Pressed::SameFloor => (),
        }
    }
    answers
}

// Starts a thread for each pass.
fn start_all<'s, E>(
    scope: &Scope<'s, E>,
    alloc: Global,
    desk: &'s Desk,
    passes: Vec<PanelPass>,
    times: u32,
) -> Result<Vec<JoinHandle<Answers>>, AllocError>
    requires tables { All (λ pass. pass.table ≡ desk.now.table) passes.items }
    requires floors { 2 ≤ desk.now.floors }
{
    let mut passes = passes;
    let mut started = Vec::new(alloc);
    'passes: while let Some(pass) = passes.pop() {
        let job = move || -> Answers
            requires table { pass.table ≡ desk.now.table }
            requires floors { 2 ≤ desk.now.floors }
        { press_often(desk, pass, times) };
        started.push(scope.spawn(job)?)?;
    }
    Ok(started)
}

// Presses in so many threads, so often in each.
fn press_all<R: Threads + Wait + Sync>(
    rt: &R,
    alloc: Global,
    desk: &Desk,
    passes: Vec<PanelPass>,
    times: u32,
) -> Result<Answers, AllocError>
    requires tables { All (λ pass. pass.table ≡ desk.now.table) passes.items }
    requires floors { 2 ≤ desk.now.floors }
{
    thread::scope(
        thread::scope_env(),
        rt,
        move |scope| -> Result<Answers, AllocError>
            requires sync { IsSync R.row }
            requires tables { All (λ pass. pass.table ≡ desk.now.table) passes.items }
            requires floors { 2 ≤ desk.now.floors }
        {
            let mut started = start_all(scope, alloc, desk, passes, times)?;
            let mut all = Answers { new: 0, already: 0 };
            'started: while let Some(thread) = started.pop() {
                let answers = thread.join(rt);
                all.new = all.new.wrapping_add(answers.new);
                all.already = all.already.wrapping_add(answers.already);
            }
            Ok(all)
        },
    )
}

/// Presses in so many threads, from 1 to 4, so often in each, and prints how many presses were answered New and Already.
pub fn press<R: Print + Threads + Wait + Sync>(
    rt: &R,
    alloc: Global,
    threads: u32,
    times: u32,
) -> io::Result<()> {
    let Ok((desk, mut passes, _hand)) = Desk::new(alloc, 2, 4) else {
        return Err(io::ErrorKind::OutOfMemory.into());
    };
    passes.truncate(threads.min(4) as usize);
    let answers = press_all(rt, alloc, &desk, passes, times)?;
    println!(rt; "{} new, {} already", answers.new, answers.already)
}
