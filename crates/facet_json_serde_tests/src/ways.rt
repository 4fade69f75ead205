//! The ways by which a value is read or written: the entry functions, streams, what the caller holds, and types by hand.

mod entries;
mod exchanged;
mod held;
mod streams;
mod writers;
