//! Reads a JSON document from the standard input, and writes it anew, its events, its tokens, or the answers of a parser's calls to
//! the standard output.
#![tactic(auto)]

ghost use Rattle.std.specs.Prelude.{◌≡◌, ◌⊎◌, IfErr};
ghost use Rattle.facet_json_command.specs.declared.run.Outcome.TheVariants as outcome;
ghost use Rattle.facet_json_command.specs.Outcome.{IsFaultOfRun};

use facet_json_command::run::{
    OUT_OF_MEMORY, Outcome, failure, run, status, without_arguments, write_line,
};
use std::env;
use std::io::BufWriter;
use std::process::ExitCode;

/// The arguments after the program's name.
fn given_words(rt: &HostRuntime) -> Result<Vec<String>, Outcome>
    ensures { IfErr result (λ o. (o ≡ outcome.Usage) ⊎ IsFaultOfRun o) }
{
    match env::args(rt) {
        Ok(args) => args.skip(1).collect(rt.alloc()).map_err(|_| OUT_OF_MEMORY),
        Err(error) => Err(without_arguments(&error)),
    }
}

/// Does what the arguments ask for, over the standard input and output.
fn answer(rt: &HostRuntime, args: &[String]) -> Outcome {
    match BufWriter::new(rt.alloc(), rt.stdout()) {
        Ok(mut writer) => run(rt.alloc(), args, &mut rt.stdin(), &mut writer),
        Err(error) => failure(&error),
    }
}

fn main(rt: HostRuntime) -> ExitCode {
    let outcome = match given_words(&rt) {
        Ok(args) => answer(&rt, args.as_slice()),
        Err(outcome) => outcome,
    };
    // Where the line can't be written, the status still tells.
    let _ = write_line(outcome, &mut rt.stderr());
    ExitCode::from(status(outcome))
}
