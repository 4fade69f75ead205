//! Does a work with the JSON text on the standard input as often as it is told, and prints the shortest time that one took in nanoseconds,
//! and what it passed; `bench/run` sets these times beside those of other libraries. Without arguments each work of any document is done
//! once, and what it passed is printed and no time. The arguments are the work's name and the number of rounds, and after them `jsonc`
//! where the text has comments, or `strict` where `events` or `trusted` shall read RFC 8259 alone.
#![tactic(auto)]

mod accounts;
mod derives;
mod lines;
mod passes;
mod seen;
mod trees;
mod work;

use crate::seen::Seen;
use crate::work::{GENERAL, Order, Work, strict_work_of, work_of};
use facet_json::scanner::Mode;
use std::fmt::Display;
use std::hint::black_box;
use std::io::{ErrorKind, Read};
use std::time::CpuClock;
use std::{env, io};

/// How many nanoseconds of the thread's processor time the work takes, and what it passes.
fn timed(rt: &HostRuntime, order: &Order<'_>) -> io::Result<(u64, Option<Seen>)> {
    let start = rt.thread_cpu_time()?;
    let seen = black_box(order).follow(rt.alloc());
    let end = rt.thread_cpu_time()?;
    let spent = u64::try_from(end.saturating_sub(start).as_nanos()).unwrap_or(u64::MAX);
    Ok((spent, seen))
}

/// Prints what was passed, behind what is told of it.
fn tell(rt: &HostRuntime, head: impl Display + Drop, seen: Option<Seen>) -> io::Result<()> {
    match seen {
        Some(seen) => println!(rt; "{head} {} {}", seen.count, seen.sum),
        None => println!(rt; "{head} refused"),
    }
}

/// Does the work so many times, and prints the shortest time and what it passed.
fn measure(rt: &HostRuntime, order: &Order<'_>, rounds: u64) -> io::Result<()> {
    let mut least = u64::MAX;
    let mut last = None;
    for _ in 0..rounds {
        let (spent, seen) = timed(rt, order)?;
        least = least.min(spent);
        last = seen;
    }
    tell(rt, least, last)
}

/// Does each work once, and prints what it passed.
fn show(rt: &HostRuntime, input: &str) -> io::Result<()> {
    for (name, work) in &GENERAL {
        let seen = Order::new(rt.alloc(), *work, Mode::Plain, input).follow(rt.alloc());
        tell(rt, *name, seen)?;
    }
    Ok(())
}

/// The work of this name and the mode of its input, by the word that stands behind the rounds.
fn named(name: &str, word: Option<&str>) -> Option<(Work, Mode)> {
    match word {
        None => Some((work_of(name)?, Mode::Plain)),
        Some("jsonc") => Some((work_of(name)?, Mode::Jsonc)),
        Some("strict") => Some((strict_work_of(name)?, Mode::Plain)),
        Some(_) => None,
    }
}

/// The work, the mode of its input, and how often it is done, by the arguments.
fn asked(words: &[String]) -> Option<(Work, Mode, u64)> {
    let (name, rounds, word) = match words {
        [name, rounds] => (name, rounds, None),
        [name, rounds, word] => (name, rounds, Some(word.as_str())),
        _ => return None,
    };
    let (work, mode) = named(name.as_str(), word)?;
    Some((work, mode, rounds.as_str().parse().ok()?))
}

/// Does what the words say with the input.
fn act(rt: &HostRuntime, words: &[String], input: &str) -> io::Result<()> {
    match asked(words) {
        Some((work, mode, rounds)) => {
            measure(rt, &Order::new(rt.alloc(), work, mode, input), rounds)
        }
        None if words.is_empty() => show(rt, input),
        None => Err(io::Error::from(ErrorKind::InvalidInput)),
    }
}

fn main(rt: HostRuntime) -> io::Result<()> {
    let words: Vec<String> = env::args(&rt)?.skip(1).collect(rt.alloc())?;
    let mut bytes = Vec::new(rt.alloc());
    rt.stdin().read_to_end(&mut bytes)?;
    match str::from_utf8(bytes.as_slice()) {
        Ok(input) => act(&rt, words.as_slice(), input),
        Err(_) => Err(io::Error::from(ErrorKind::InvalidData)),
    }
}
