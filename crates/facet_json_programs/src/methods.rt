//! What can be asked for: each method reads its own parameters from their text.

ghost use Rattle.std.specs.Prelude.{◌≡◌, IfErr};
ghost use Rattle.facet_json_programs.specs.Faults.{IsOfMethod};
ghost use Rattle.facet_json_programs.specs.Methods.{IsUnknown};
ghost use Rattle.facet_json_programs.specs.declared.fault.RpcFault.TheVariants.{Method};

use crate::fault::RpcFault;
use facet_json::{Facet, RawJson, from_str, to_string};
use std::alloc::Global;

/// Reads the parameters that a method takes.
fn read_params<'de, T: Facet<'de>>(alloc: Global, params: &'de str) -> Result<T, RpcFault>
    ensures { IfErr result IsOfMethod }
{
    match from_str(alloc, params) {
        Ok(read) => Ok(read),
        Err(refused) => Err(RpcFault::Params.or_memory(refused.kind)),
    }
}

/// The value, as JSON text.
fn json_of<'de, T: Facet<'de>>(alloc: Global, value: &T) -> Result<String, RpcFault>
    ensures { IfErr result IsOfMethod }
{
    Ok(to_string(alloc, value)?)
}

/// The sum of numbers, where it has 64 bits.
fn sum_of(numbers: &[i64]) -> Result<i64, RpcFault>
    ensures { IfErr result IsOfMethod }
{
    let mut sum: i64 = 0;
    for number in numbers {
        sum = sum.checked_add(*number).ok_or(RpcFault::Params)?;
    }
    Ok(sum)
}

/// How many characters the one text has.
fn length_of(texts: &[String]) -> Result<usize, RpcFault>
    ensures { IfErr result IsOfMethod }
{
    match texts {
        [text] => Ok(text.as_str().chars().count()),
        _ => Err(RpcFault::Params),
    }
}

/// The result of `sum`: of `[1,2]` it is 3.
fn sum(alloc: Global, params: &str) -> Result<String, RpcFault>
    ensures { IfErr result IsOfMethod }
{
    let numbers: Vec<i64> = read_params(alloc, params)?;
    json_of(alloc, &sum_of(numbers.as_slice())?)
}

/// The result of `length`: of `["caf\u00e9"]` it is 4.
fn length(alloc: Global, params: &str) -> Result<String, RpcFault>
    ensures { IfErr result IsOfMethod }
{
    let texts: Vec<String> = read_params(alloc, params)?;
    json_of(alloc, &length_of(texts.as_slice())?)
}

/// The result of the method of this name, as JSON text: `sum`, `length`, and `echo`, whose result is the parameters verbatim.
pub fn call<'de>(alloc: Global, method: &str, params: &'de str) -> Result<RawJson<'de>, RpcFault>
    ensures unknown { IsUnknown method.now → result ≡ Err Method }
    ensures known { result ≡ Err Method → IsUnknown method.now }
{
    match method {
        "sum" => Ok(RawJson::from(sum(alloc, params)?)),
        "length" => Ok(RawJson::from(length(alloc, params)?)),
        "echo" => Ok(RawJson::new(params)),
        _ => Err(RpcFault::Method),
    }
}
