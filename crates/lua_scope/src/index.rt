// The labels of a block by their names, so that its statements are not looked through for each name.
ghost use Rattle.std.specs.Prelude.{◌≡◌, ℕ, List, map, IfOk, OnOk, bytes_eq};
ghost use Rattle.std.specs.Option.{option_copied};
ghost use Rattle.tree_core.specs.Plain.{plain_stat};
ghost use Rattle.scope_core.specs.Rules.{is_label, declares_variable, is_empty_or_label};
ghost use Rattle.lua_scope.specs.Indexed.{IsIndexOf, IsEndFrom, declared_behind, found_in, label_of, or_first};

use int_core::{Allocated, Bytes};
use std::alloc::Global;
use std::collections::HashMap;
use tree_core::{Stat, StatNode};

/// Where a label stands in a block.
#[derive(Clone, Copy, Debug, PartialEq, Eq, Drop)]
pub struct LabelPlace {
    /// How many statements stand before it.
    pub at: usize,
    /// How many of them there are up to the last that declares a variable.
    pub declared: usize,
}

/// The name of a label.
fn label_of(stat: &Stat) -> Option<&Bytes>
    ensures { option_copied result ≡ label_of (plain_stat stat.now) }
{
    match &stat.node {
        StatNode::Label(name) => Some(&name.text),
        _ => None,
    }
}

/// Whether a statement is the label of a name.
pub fn is_label(stat: &Stat, text: &Bytes) -> bool
    ensures { result ≡ is_label text.now (plain_stat stat.now) }
{
    match &stat.node {
        StatNode::Label(name) => name.text == *text,
        _ => false,
    }
}

/// Whether variables are in scope behind a statement that are not before it.
pub fn declares_variable(stat: &Stat) -> bool
    ensures { result ≡ declares_variable (plain_stat stat.now) }
{
    matches!(
        &stat.node,
        StatNode::Local(_, _) | StatNode::LocalFunction(_, _)
    )
}

/// Whether a statement does nothing.
fn is_empty_or_label(stat: &Stat) -> bool
    ensures { result ≡ is_empty_or_label (plain_stat stat.now) }
{
    matches!(&stat.node, StatNode::Empty | StatNode::Label(_))
}

/// How many statements there are up to the last that declares a variable, where one more statement
/// ends at `behind`.
fn declared_behind(stat: &Stat, declared: usize, behind: usize) -> usize
    ensures { result ≡ declared_behind (plain_stat stat.now) declared behind }
{
    if declares_variable(stat) {
        return behind;
    }
    declared
}

/// The first label of each name in statements.
pub fn index_labels(alloc: Global, list: &Vec<Stat>) -> Allocated<HashMap<Vec<u8>, LabelPlace>>
    ensures { IfOk result (λ labels. IsIndexOf labels (map plain_stat list.now.items)) }
{
    let mut labels = HashMap::new(alloc);
    let mut at = 0;
    let mut declared = 0;
    for stat in list.iter() {
        let behind = at + 1;
        add_label(alloc, &mut labels, stat, LabelPlace { at, declared })?;
        declared = declared_behind(stat, declared, behind);
        at = behind;
    }
    Ok(labels)
}

/// Adds a statement to an index, where it is the first label of its name.
fn add_label(
    alloc: Global,
    labels: &mut HashMap<Vec<u8>, LabelPlace>,
    stat: &Stat,
    place: LabelPlace,
) -> Allocated<()>
    ensures { OnOk result ((text : List ℕ) → found_in text labels.new ≡ or_first (found_in text labels.old) (is_label text (plain_stat stat.now)) place) }
{
    match label_of(stat) {
        Some(name) => {
            add_name(alloc, labels, name, place)?;
            Ok(())
        }
        None => Ok(()),
    }
}

/// Adds a name to an index, where it is not there yet.
fn add_name(
    alloc: Global,
    labels: &mut HashMap<Vec<u8>, LabelPlace>,
    name: &Bytes,
    place: LabelPlace,
) -> Allocated<()>
    ensures { OnOk result ((text : List ℕ) → found_in text labels.new ≡ or_first (found_in text labels.old) (bytes_eq name.now text) place) }
{
    if labels.contains_key(name.as_slice()) {
        return Ok(());
    }
    let key = name.as_slice().to_vec(alloc)?;
    labels.insert(key, place)?;
    Ok(())
}

/// The number of the statement from which on all in a list do nothing.
pub fn end_from(list: &Vec<Stat>) -> usize
    ensures { IsEndFrom result (map plain_stat list.now.items) }
{
    let mut from = list.len();
    while from > 0 {
        if !is_empty_or_label(&list[from - 1]) {
            return from;
        }
        from -= 1;
    }
    0
}
