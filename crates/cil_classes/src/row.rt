//! The row of a class, its number, and the classes of a policy.

use cil_base::{Bytes, Names};

/// A class, by its number in the tables.
#[derive(Clone, Copy, Debug, PartialEq, Eq)]
pub struct ClassId {
    /// The place of the class in the byte order of the names, counted from 0.
    pub number: usize,
}

/// A class of objects with its permissions.
#[derive(Debug, Drop)]
pub struct Class {
    /// The qualified name.
    pub name: Bytes,
    /// The permissions in byte order, each once, at most 32. Bit i of a mask is the i-th of them.
    pub permissions: Names,
}

/// The classes of a policy.
#[derive(Drop)]
pub struct Classes {
    /// Their rows, in byte order of the names: a class stands at its number.
    pub rows: Vec<Class>,
}
