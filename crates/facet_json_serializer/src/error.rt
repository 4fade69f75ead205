//! How writing is refused.

ghost use Rattle.std.specs.Prelude.{◌≡◌};
ghost use Rattle.facet_json_serializer.specs.Serializer as refusal;
ghost use Rattle.facet_json_serializer.specs.declared.error.JsonSerializeError.TheVariants.{OutOfMemory};
ghost use Rattle.facet_json_serializer.specs.Views.{write_refusal_of};

use std::alloc::{AllocError, AllocFailed};
use thiserror::Error;

/// Why writing was refused. All but `OutOfMemory` change nothing.
#[derive(Debug, Drop, Error)]
pub enum JsonSerializeError {
    /// A key was written where no struct is the innermost open container.
    #[error("field_key called outside of a struct")]
    KeyOutsideStruct,
    /// A struct was ended where none is the innermost open container.
    #[error("end_struct called without matching begin_struct")]
    NoStructToEnd,
    /// A list was ended where none is the innermost open container.
    #[error("end_seq called without matching begin_seq")]
    NoListToEnd,
    /// An allocation failed. From then on every call is refused so.
    #[error("out of memory")]
    OutOfMemory,
}

impl JsonSerializeError {
    /// The number of the kind, which does not change from release to release.
    pub fn code(&self) -> u8
        ensures { result ≡ refusal.code (write_refusal_of self.now) }
    {
        match self {
            JsonSerializeError::KeyOutsideStruct => 1,
            JsonSerializeError::NoStructToEnd => 2,
            JsonSerializeError::NoListToEnd => 3,
            JsonSerializeError::OutOfMemory => 4,
        }
    }
}

impl From<AllocError> for JsonSerializeError {
    ghost from_gives = { λ _ e. e ≡ OutOfMemory };

    fn from(_e: AllocError) -> JsonSerializeError {
        JsonSerializeError::OutOfMemory
    }
}

impl<T: Drop> From<AllocFailed<T>> for JsonSerializeError {
    ghost from_gives = { λ _ e. e ≡ OutOfMemory };

    fn from(_e: AllocFailed<T>) -> JsonSerializeError {
        JsonSerializeError::OutOfMemory
    }
}
