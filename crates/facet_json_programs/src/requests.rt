//! Requests of JSON-RPC 2.0, a request a line, whose parameters stay text.

ghost use Rattle.std.specs.Prelude.{◌≡◌, ◌⊎◌, OnOk, IfErr};
ghost use Rattle.facet_json.specs.StrictDocument.{IsStrict};
ghost use Rattle.facet_json_programs.specs.declared.fault.RpcFault.TheVariants.{Parse, Memory};

use crate::fault::RpcFault;
use crate::members::member;
use facet_json::{check_strict, from_str};
use std::alloc::Global;

/// A request (JSON-RPC 2.0, section 4), which borrows of its line.
#[derive(Drop)]
pub struct Request<'de> {
    /// What its answer has in the same place, as it is in the line. A request without is a notification, and has no answer.
    pub id: Option<&'de str>,
    /// What is asked for.
    pub method: String,
    /// An array or an object, as it is in the line.
    pub params: &'de str,
}

/// Checks that a line is one text of RFC 8259, and keeps nothing of it.
fn check(alloc: Global, line: &[u8]) -> Result<(), RpcFault>
    ensures strict { OnOk result (IsStrict line.now) }
    ensures fault { IfErr result (λ fault. (fault ≡ Memory) ⊎ ((fault ≡ Parse) × (IsStrict line.now → ⊥))) }
{
    match check_strict(alloc, line) {
        Ok(()) => Ok(()),
        Err(refused) => Err(RpcFault::Parse.or_memory(refused.kind)),
    }
}

/// The text that a part is.
fn text_in(alloc: Global, json: &str) -> Result<String, RpcFault> {
    if json.starts_with('"') {
        Ok(from_str(alloc, json)?)
    } else {
        Err(RpcFault::Request)
    }
}

/// Whether a part is a string, a number or null.
fn is_id(json: &str) -> bool {
    !matches!(json.as_bytes(), [b'{' | b'[' | b't' | b'f', ..])
}

/// Whether a part is an array or an object.
fn is_structured(json: &str) -> bool {
    matches!(json.as_bytes(), [b'{' | b'[', ..])
}

/// Checks that a line has the version's member.
fn check_version(alloc: Global, line: &[u8]) -> Result<(), RpcFault> {
    let version = member(alloc, line, "jsonrpc")?.ok_or(RpcFault::Request)?;
    if text_in(alloc, version)?.as_str() == "2.0" {
        Ok(())
    } else {
        Err(RpcFault::Request)
    }
}

/// The request that a line is. The first member of each name counts.
pub fn read_request<'de>(alloc: Global, line: &'de [u8]) -> Result<Request<'de>, RpcFault>
    ensures strict { OnOk result (IsStrict line.now) }
{
    check(alloc, line)?;
    check_version(alloc, line)?;
    let id = member(alloc, line, "id")?;
    let params = member(alloc, line, "params")?.unwrap_or("[]");
    let method = member(alloc, line, "method")?.ok_or(RpcFault::Request)?;
    if is_id(id.unwrap_or("null")) && is_structured(params) {
        Ok(Request {
            id,
            method: text_in(alloc, method)?,
            params,
        })
    } else {
        Err(RpcFault::Request)
    }
}
