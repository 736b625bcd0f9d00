//! Lists of nonzero cells in order of their variables, and what an exchange does to them.

ghost use Rattle.std.specs.Prelude.{◌+◌, IfOk};
ghost use Rattle.fraction128.specs.Fraction.{IsForm};
ghost use Rattle.simplex.specs.Entries.{AreSparse, AreSparseBelow, IsSplit, IsSplitAt, IsAt, IsBehind, IsValueAt, IsFirstListed};
ghost use Rattle.simplex.specs.CellSteps.{IsDivisor, TakesCell, DividesAll, IsPushed, TakesAway};

use crate::SolveStop;
use fraction128::{Frac, Wide};
use std::alloc::{AllocError, Global};

// A nonzero cell of a row, at its variable.
#[derive(Clone, Copy)]
pub(crate) struct Entry {
    pub(crate) variable: usize,
    pub(crate) value: Frac,
}

// The variable of the entry after this many others, or `end` after the last one.
fn variable_behind(entries: &[Entry], count: usize, end: usize) -> usize
    ensures { IsBehind entries.now count end result }
{
    if count < entries.len() {
        entries[count].variable
    } else {
        end
    }
}

// Whether the entry at a place of the list is that of variable v.
fn is_at(entries: &[Entry], place: usize, v: usize) -> bool
    ensures { IsAt result entries.now place v }
{
    place < entries.len() && entries[place].variable == v
}

// The value at variable v, if this many entries are at variables below it.
fn value_behind(entries: &[Entry], count: usize, v: usize) -> Frac
    requires { IsSplitAt entries.now count v }
    ensures { IsValueAt entries.now v result }
{
    if is_at(entries, count, v) {
        entries[count].value
    } else {
        Frac::whole(0)
    }
}

// How many entries are at variables up to v, if this many are at variables below it.
fn count_through(entries: &[Entry], count: usize, v: usize) -> usize
    requires { IsSplitAt entries.now count v }
    ensures { IsSplit entries.now result (v + 1) }
{
    if is_at(entries, count, v) {
        count + 1
    } else {
        count
    }
}

// The value at variable v.
pub(crate) fn value_at(entries: &[Entry], v: usize) -> Frac
    requires { AreSparse entries.now }
    ensures { IsValueAt entries.now v result }
{
    for entry in entries {
        if entry.variable == v {
            return entry.value;
        }
    }
    Frac::whole(0)
}

// The first variable whose value is above 0.
pub(crate) fn first_above(entries: &[Entry]) -> Option<usize>
    requires { AreSparse entries.now }
    ensures { IsFirstListed result entries.now }
{
    for entry in entries {
        if entry.value.is_above_zero() {
            return Some(entry.variable);
        }
    }
    None
}

// Each value divided. A zero cell has no entry, and stays zero.
pub(crate) fn divide_all(
    alloc: Global,
    entries: &[Entry],
    by: Frac,
) -> Result<Vec<Entry>, SolveStop>
    requires divisor { IsDivisor by }
    requires sparse { AreSparse entries.now }
    ensures { DividesAll result entries.now by }
{
    let mut divided = Vec::new(alloc);
    for entry in entries {
        let value = entry.value.div(by)?;
        let variable = entry.variable;
        divided.push(Entry { variable, value })?;
    }
    Ok(divided)
}

// What is left of a if f times y is subtracted.
pub(crate) fn less_product(a: Frac, f: Frac, y: Frac) -> Result<Frac, Wide>
    requires { IsForm a }
    ensures { TakesCell result a f y }
{
    if y.is_zero() {
        return Ok(a);
    }
    let product = f.mul(y)?;
    a.sub(product)
}

// Adds a cell behind the others. A zero cell gets no entry.
fn push_cell(list: &mut Vec<Entry>, variable: usize, value: Frac) -> Result<(), AllocError>
    ensures { IfOk result (λ _. IsPushed list.old.items variable value list.new.items) }
{
    if !value.is_zero() {
        list.push(Entry { variable, value })?;
    }
    Ok(())
}

// What is left of each cell if f times the pivot's is subtracted, at variables below `end`, in order. A cell that becomes zero gets no
// entry.
pub(crate) fn take_away(
    alloc: Global,
    entries: &[Entry],
    f: Frac,
    pivot: &[Entry],
    end: usize,
) -> Result<Vec<Entry>, SolveStop>
    requires row { AreSparseBelow end entries.now }
    requires pivot { AreSparseBelow end pivot.now }
    ensures { TakesAway result end entries.now f pivot.now }
{
    let mut left = Vec::new(alloc);
    // i entries of the row and j of the pivot are at variables below v, the next one in either list
    let mut i = 0;
    let mut j = 0;
    let mut v = variable_behind(entries, i, end).min(variable_behind(pivot, j, end));
    while v < end {
        let cell = value_behind(entries, i, v);
        let rest = less_product(cell, f, value_behind(pivot, j, v))?;
        push_cell(&mut left, v, rest)?;
        i = count_through(entries, i, v);
        j = count_through(pivot, j, v);
        v = variable_behind(entries, i, end).min(variable_behind(pivot, j, end));
    }
    Ok(left)
}
