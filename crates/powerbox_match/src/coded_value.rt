//! A tag's value over plain lists, by which proofs tell values apart. No value of it is ever made.

use std::collections::LinkedList;

/// A tag's value over lists that contracts see as plain ones.
#[derive(Drop)]
pub enum CodedValue {
    Any,
    Number(i128),
    Text(LinkedList<u8>),
    Fields(LinkedList<(LinkedList<u8>, CodedValue)>),
    Items(LinkedList<CodedValue>),
}
