//! Answers rows: each is a command line as it is typed at a shell, and what it prints stands below it. So a further row needs no proof.
#![tactic(auto)]

mod blocks;
mod checked;
mod compared;
mod counted;
mod cuts;
mod decoded;
mod derived;
mod faults;
mod long;
mod marked;
mod numbers;
mod pieces;
mod printf;
mod program;
mod row;
mod scans;
mod tokens;
mod unread;

use facet_json_row_values::told::Told;
use std::alloc::Global;
use std::io;
use std::io::{Read, Write};

/// Tells each line of the rows again, and below a command line what it prints.
fn answer(alloc: Global, rows: &str, told: &mut Told) {
    for line in rows.lines() {
        if line.is_empty() || line.starts_with('#') {
            told.line(line);
        } else {
            told.say("$ ");
            told.line(line);
            row::answer(alloc, line, told);
        }
    }
}

fn main(rt: HostRuntime) -> io::Result<()> {
    let mut rows = String::new(rt.alloc());
    rt.stdin().read_to_string(&mut rows)?;
    let mut told = Told::new(rt.alloc());
    answer(rt.alloc(), rows.as_str(), &mut told);
    rt.stdout().write_all(told.whole()?.as_bytes())
}
