//! Why a request has no result.

ghost use Rattle.std.specs.Prelude.{◌≡◌};
ghost use Rattle.facet_json.specs.FormatViews.{complaint_of};
ghost use Rattle.facet_json_programs.specs.Faults.{or_memory};
ghost use Rattle.facet_json_programs.specs.declared.fault.RpcFault.TheVariants.{Request, Memory};

use facet_json::{DeserializeError, DeserializeErrorKind, JsonSerializeError};

/// Why a request has no result (JSON-RPC 2.0, section 5.1).
#[derive(Clone, Copy)]
pub enum RpcFault {
    /// The line is no text of RFC 8259.
    Parse,
    /// It is no request.
    Request,
    /// No method has that name.
    Method,
    /// The method doesn't take these parameters.
    Params,
    /// An allocation failed.
    Memory,
    /// The line is longer than the limit.
    Length,
}

impl RpcFault {
    /// What an answer has in place of a result, as JSON text.
    pub fn json(self) -> &'static str {
        match self {
            RpcFault::Parse => r#"{"code":-32700,"message":"Parse error"}"#,
            RpcFault::Request => r#"{"code":-32600,"message":"Invalid Request"}"#,
            RpcFault::Method => r#"{"code":-32601,"message":"Method not found"}"#,
            RpcFault::Params => r#"{"code":-32602,"message":"Invalid params"}"#,
            RpcFault::Memory => r#"{"code":-32603,"message":"Internal error"}"#,
            RpcFault::Length => r#"{"code":-32000,"message":"Request too long"}"#,
        }
    }

    /// The fault of a reader that was refused so: a lack of memory, or else this one.
    pub fn or_memory(self, kind: DeserializeErrorKind<'_>) -> RpcFault
        ensures { result ≡ or_memory (complaint_of kind.entry) self }
    {
        match kind {
            DeserializeErrorKind::OutOfMemory => RpcFault::Memory,
            _ => self,
        }
    }
}

/// A part of the request is refused so.
impl From<DeserializeError<'static>> for RpcFault {
    ghost from_gives = { λ refused fault. fault ≡ or_memory (complaint_of refused.kind) Request };

    fn from(refused: DeserializeError<'static>) -> RpcFault {
        RpcFault::Request.or_memory(refused.kind)
    }
}

/// Writing lacks nothing but memory.
impl From<JsonSerializeError> for RpcFault {
    ghost from_gives = { λ _ fault. fault ≡ Memory };

    fn from(_refused: JsonSerializeError) -> RpcFault {
        RpcFault::Memory
    }
}
