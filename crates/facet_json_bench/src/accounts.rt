//! A list of structs of ten fields.

use crate::seen::{Seen, wide};
use facet_json::scanner::Mode;
use facet_json::{
    from_slice, from_slice_borrowed, from_slice_borrowed_jsonc, from_slice_jsonc, to_vec,
};
use facet_json_examples::accounts::Account;
use facet_json_examples::contacts::Contact;
use std::alloc::Global;
use std::hint::black_box;

/// The accounts of the document.
pub fn accounts_of(alloc: Global, input: &[u8], mode: Mode) -> Option<Vec<Account>> {
    let accounts = match mode {
        Mode::Plain => from_slice(alloc, input),
        Mode::Jsonc => from_slice_jsonc(alloc, input),
    };
    accounts.ok()
}

/// A list of accounts is read and dropped.
pub fn typed(alloc: Global, input: &[u8], mode: Mode) -> Option<Seen> {
    let _accounts = black_box(accounts_of(alloc, input, mode)?);
    Some(Seen::none().with(0))
}

/// Whom to write to of a list of accounts, by texts that stand in the input.
fn contacts_of(alloc: Global, input: &[u8], mode: Mode) -> Option<Vec<Contact<'_>>> {
    let contacts = match mode {
        Mode::Plain => from_slice_borrowed(alloc, input),
        Mode::Jsonc => from_slice_borrowed_jsonc(alloc, input),
    };
    contacts.ok()
}

/// Whom to write to of a list of accounts is read and dropped.
pub fn typed_lent(alloc: Global, input: &[u8], mode: Mode) -> Option<Seen> {
    let _contacts = black_box(contacts_of(alloc, input, mode)?);
    Some(Seen::none().with(0))
}

/// The accounts are written.
pub fn typed_text(alloc: Global, accounts: &Vec<Account>) -> Option<Seen> {
    let text = black_box(to_vec(alloc, accounts).ok()?);
    Some(Seen::none().with(wide(text.len())))
}
