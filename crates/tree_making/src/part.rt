// Parts of a tree while it is made.
use tree_core::{Exp, Name, Stat};

/// A part of a tree and how deep it is.
#[derive(Debug, Drop)]
pub struct Found<T> {
    /// What it is.
    pub node: T,
    /// How many levels it has.
    pub height: u32,
}

/// The parameters of a function.
#[derive(Drop)]
pub struct Params {
    /// Their names.
    pub names: Vec<Name>,
    /// Whether `...` stands behind them.
    pub vararg: bool,
}

/// A block whose tokens were not counted yet.
#[derive(Drop)]
pub struct Items {
    /// The statements before the `return`.
    pub stats: Vec<Stat>,
    /// The expressions behind `return`, where there is one.
    pub result: Option<Vec<Exp>>,
    /// The line of the `return`, or where there is none of the token that ends the block.
    pub line: u32,
}

/// The values that a numeric `for` goes through.
#[derive(Drop)]
pub struct Range {
    /// The first of them.
    pub first: Found<Box<Exp>>,
    /// What they don't go past.
    pub limit: Found<Box<Exp>>,
    /// The distance between two of them.
    pub step: Found<Option<Box<Exp>>>,
}
