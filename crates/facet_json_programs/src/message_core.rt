//! Answers requests of JSON-RPC 2.0, a request a line, and an answer a line. Batches are not read: a line that is an array is no request.

ghost use Rattle.std.specs.Prelude.{◌≡◌, None, Ok, IsSome, IfOk};
ghost use Rattle.facet_json.specs.Event.{bytes_of};
ghost use Rattle.facet_json.specs.Text.{default_options, text};
ghost use Rattle.facet_json_programs.specs.Answers.{answer as answer_tree};

use crate::fault::RpcFault;
use crate::methods::call;
use crate::requests::{Request, read_request};
use facet_json::{
    Done, JsonSerializeError, JsonSerializer, LineError, Lines, Need, RawJson, write_fields,
};
use std::alloc::Global;
use std::io;
use std::io::{BufRead, BufReader, ErrorKind, Write};

/// The most bytes of a line.
pub const LONGEST_LINE: usize = 1_048_576;

/// The text of an answer to the request of this id, as `{"jsonrpc":"2.0","id":7,"result":3}`.
fn answer_text<'a>(
    alloc: Global,
    id: &RawJson<'a>,
    name: &str,
    part: &RawJson<'a>,
) -> Result<Vec<u8>, JsonSerializeError>
    ensures { IfOk result (λ v. v.items ≡ text default_options 0 (answer_tree (bytes_of id.now) name.now (bytes_of part.now))) }
{
    let mut serializer = JsonSerializer::new(alloc);
    let fields = Need(&"2.0", Need(id, Need(part, Done)));
    write_fields(&mut serializer, &["jsonrpc", "id", name], &fields)?;
    serializer.finish()
}

/// The answer to the request of this id.
fn answer_of<'a>(
    alloc: Global,
    id: &'a str,
    outcome: &Result<RawJson<'a>, RpcFault>,
) -> Result<Vec<u8>, JsonSerializeError> {
    let id = RawJson::new(id);
    match outcome {
        Ok(value) => answer_text(alloc, &id, "result", value),
        Err(fault) => answer_text(alloc, &id, "error", &RawJson::new(fault.json())),
    }
}

/// The answer to a request, and none to a notification.
fn answer(alloc: Global, request: &Request<'_>) -> Result<Option<Vec<u8>>, JsonSerializeError>
    ensures silent { request.now.id ≡ None → result ≡ Ok None }
    ensures heard { IsSome request.now.id → IfOk result IsSome }
{
    let outcome = call(alloc, request.method.as_str(), request.params);
    match request.id {
        Some(id) => Ok(Some(answer_of(alloc, id, &outcome)?)),
        None => Ok(None),
    }
}

/// The answer where the id of a request is not known.
fn refusal(alloc: Global, fault: RpcFault) -> Result<Option<Vec<u8>>, JsonSerializeError> {
    Ok(Some(answer_of(alloc, "null", &Err(fault))?))
}

/// The answer to a line.
fn answer_to(alloc: Global, line: &[u8]) -> Result<Option<Vec<u8>>, JsonSerializeError> {
    match read_request(alloc, line) {
        Ok(request) => answer(alloc, &request),
        Err(fault) => refusal(alloc, fault),
    }
}

/// Sends an answer, as a line.
fn send<W: Write>(
    output: &mut W,
    answer: Result<Option<Vec<u8>>, JsonSerializeError>,
) -> io::Result<()> {
    match answer {
        Ok(Some(text)) => {
            output.write_all(text.as_slice())?;
            output.write_all(b"\n")?;
            output.flush()
        }
        Ok(None) => Ok(()),
        Err(_) => Err(io::Error::from(ErrorKind::OutOfMemory)),
    }
}

/// Answers each line of the input. A line that is too long is refused, and the next one is served.
fn serve<R: BufRead + Drop, W: Write>(alloc: Global, input: R, output: &mut W) -> io::Result<()> {
    let mut lines = Lines::new(alloc, input, LONGEST_LINE);
    'lines: loop {
        match lines.next_line() {
            Ok(Some(line)) => send(output, answer_to(alloc, line.text))?,
            Ok(None) => return Ok(()),
            Err(LineError::TooLong { .. }) => send(output, refusal(alloc, RpcFault::Length))?,
            Err(LineError::Memory) => return Err(io::Error::from(ErrorKind::OutOfMemory)),
            Err(LineError::Io(error)) => return Err(error),
        }
    }
}

/// Serves the standard input. It returns the status: 0 where the input has ended.
pub fn run(rt: &HostRuntime) -> io::Result<u8> {
    let input = BufReader::new(rt.alloc(), rt.stdin())?;
    serve(rt.alloc(), input, &mut rt.stdout())?;
    Ok(0)
}
