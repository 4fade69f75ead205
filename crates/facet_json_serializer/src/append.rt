//! Appending bytes, and whole numbers of any width.

ghost use Rattle.std.specs.Prelude.{◌≡◌, ◌++◌, OnOk};

use crate::sink::Sink;
use std::alloc::AllocError;

/// Appends bytes verbatim.
#[inline(always)]
pub(crate) fn push_bytes(out: &mut Sink, bytes: &[u8]) -> Result<(), AllocError>
    ensures { OnOk result (out.new ≡ out.old ++ bytes.now) }
{
    out.extend_from_slice(bytes)
}

/// Appends a whole number's decimal digits, after a minus where it is negative.
pub(crate) fn push_number<N: itoa::Integer>(out: &mut Sink, n: N) -> Result<(), AllocError>
    ensures { OnOk result (out.new ≡ out.old ++ N.text n) }
{
    let mut buffer = itoa::Buffer::new();
    out.extend_from_slice(buffer.format(n).as_bytes())
}
