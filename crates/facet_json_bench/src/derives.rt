//! Lists of types with serde's derives, read and written by this library, and by the toolchain's crate `serde_json`.

use crate::seen::{Seen, wide};
use serde::{Deserialize, Serialize};
use std::alloc::Global;
use std::hint::black_box;

/// Which crate reads or writes.
#[derive(Clone, Copy)]
pub enum Side {
    /// `facet_json_serde`.
    Ours,
    /// The toolchain's `serde_json`.
    Kit,
}

/// A type of which there is a list.
#[derive(Clone, Copy)]
pub enum Listed {
    /// Accounts of ten fields.
    Accounts,
    /// Points of three decimals.
    Points,
    /// Shapes, told apart by a field.
    Shapes,
    /// Shapes, told apart by the one key of an object.
    Outlines,
}

/// What `facet_json_examples` reads as its account.
#[derive(Drop, Serialize, Deserialize)]
pub struct Account {
    id: u64,
    name: String,
    email: String,
    active: bool,
    age: u8,
    score: i32,
    visits: u32,
    city: Option<String>,
    tags: Vec<String>,
    parent: Option<u64>,
}

/// A point of a space.
#[derive(Drop, Serialize, Deserialize)]
pub struct Point {
    x: f64,
    y: f64,
    z: f64,
}

/// A shape, whose kind is a member like the others.
#[derive(Drop, Serialize, Deserialize)]
#[serde(tag = "kind", rename_all = "lowercase")]
pub enum Shape {
    Circle { radius: u32 },
    Box { width: u32, height: u32 },
    Label { text: String, bold: bool },
}

/// A shape, whose kind is the key of an object that has nothing else.
#[derive(Drop, Serialize, Deserialize)]
#[serde(rename_all = "lowercase")]
pub enum Outline {
    Circle { radius: u32 },
    Box { width: u32, height: u32 },
    Label { text: String, bold: bool },
}

/// A list that was read, to be written.
#[derive(Drop)]
pub enum List {
    Accounts(Vec<Account>),
    Points(Vec<Point>),
    Shapes(Vec<Shape>),
    Outlines(Vec<Outline>),
}

/// The list of the document.
pub fn list_of(alloc: Global, input: &[u8], listed: Listed) -> Option<List> {
    match listed {
        Listed::Accounts => Some(List::Accounts(items(alloc, input, Side::Ours)?)),
        Listed::Points => Some(List::Points(items(alloc, input, Side::Ours)?)),
        Listed::Shapes => Some(List::Shapes(items(alloc, input, Side::Ours)?)),
        Listed::Outlines => Some(List::Outlines(items(alloc, input, Side::Ours)?)),
    }
}

/// A list is read and dropped.
pub fn derive(alloc: Global, input: &[u8], listed: Listed, side: Side) -> Option<Seen> {
    match listed {
        Listed::Accounts => read::<Account>(alloc, input, side),
        Listed::Points => read::<Point>(alloc, input, side),
        Listed::Shapes => read::<Shape>(alloc, input, side),
        Listed::Outlines => read::<Outline>(alloc, input, side),
    }
}

/// A list is written.
pub fn derive_text(alloc: Global, list: &List, side: Side) -> Option<Seen> {
    match list {
        List::Accounts(accounts) => written(alloc, accounts, side),
        List::Points(points) => written(alloc, points, side),
        List::Shapes(shapes) => written(alloc, shapes, side),
        List::Outlines(outlines) => written(alloc, outlines, side),
    }
}

/// Reads the items, and drops them.
fn read<'de, T: Deserialize<'de> + Drop>(
    alloc: Global,
    input: &'de [u8],
    side: Side,
) -> Option<Seen> {
    let items = black_box(items::<T>(alloc, input, side)?);
    Some(Seen::none().with(wide(items.len())))
}

/// The items.
fn items<'de, T: Deserialize<'de>>(alloc: Global, input: &'de [u8], side: Side) -> Option<Vec<T>> {
    match side {
        Side::Ours => facet_json_serde::from_slice(alloc, input).ok(),
        Side::Kit => serde_json::from_slice(alloc, input).ok(),
    }
}

/// Writes the items.
fn written<T: Serialize>(alloc: Global, items: &Vec<T>, side: Side) -> Option<Seen> {
    let text = match side {
        Side::Ours => facet_json_serde::to_vec(alloc, items).ok()?,
        Side::Kit => serde_json::to_vec(alloc, items).ok()?,
    };
    Some(Seen::none().with(wide(black_box(text).len())))
}
