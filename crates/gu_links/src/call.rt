//! What calls by reference ask for.
ghost use Rattle.std.specs.Prelude.{◌≡◌, ◌<◌, ◌++◌, All, Contains, IfOk, OnOk, Some, flat_map, length, map, zip};
ghost use Rattle.gu_contents.specs.Belongs.{IsFunc};
ghost use Rattle.gu_links.specs.Cells as numbers;
ghost use Rattle.gu_links.specs.Gives.{Contents};
ghost use Rattle.gu_links.specs.Gives as g;
ghost use Rattle.gu_links.specs.Known.{Has, cells_of};
ghost use Rattle.gu_links.specs.Kept as kept;
ghost use Rattle.gu_links.specs.Index.{IsHead, AreCallees};

use crate::index::{params_of, results_of};
use crate::known::content_at;
use crate::reach::{Callees, Reach};
use crate::system::System;
use gu_contents::Content;
use gu_types::List;
use std::alloc::{AllocError, Global};

/// Passes the operands of a call to the parameters of a function, one by one.
fn pass(
    asked: &mut List<(usize, Content)>,
    s: &System<'_>,
    function: u32,
    operands: &[usize],
    known: &[(usize, Content)],
) -> Result<(), AllocError>
    requires function { IsFunc s.now.facts.now function }
    requires known { All (Contains (cells_of known.now)) operands.now }
    ensures { OnOk result ((x : Contents) → Has known.now x → asked.new ≡ asked.old ++ zip (numbers.param_cells s.now.facts.now function) (map x operands.now)) }
{
    let count = params_of(s.facts, s.type_of(function));
    'operands: for (place, operand) in operands.iter().enumerate() {
        if place < count {
            let a = content_at(known, place.saturating_add(1), *operand);
            asked.push((s.param_cell(function, place), a))?;
        }
    }
    Ok(())
}

/// Gives the results of a function to the result cells of a call, one by one.
fn give_back(
    asked: &mut List<(usize, Content)>,
    s: &System<'_>,
    function: u32,
    results: &[usize],
    known: &[(usize, Content)],
    near: usize,
) -> Result<(), AllocError>
    requires function { IsFunc s.now.facts.now function }
    requires known { All (Contains (cells_of known.now)) (numbers.out_cells s.now.facts.now function) }
    ensures { OnOk result ((x : Contents) → Has known.now x → asked.new ≡ asked.old ++ zip results.now (map x (numbers.out_cells s.now.facts.now function))) }
{
    let count = results_of(s.facts, s.type_of(function));
    'results: for (place, result_cell) in results.iter().enumerate() {
        if place < count {
            let out = s.out_cell(function, place);
            let a = content_at(known, near.saturating_add(place), out);
            asked.push((*result_cell, a))?;
        }
    }
    Ok(())
}

/// What a call of one function asks for.
fn call(
    asked: &mut List<(usize, Content)>,
    s: &System<'_>,
    function: u32,
    operands: &[usize],
    results: &[usize],
    known: &[(usize, Content)],
    near: usize,
) -> Result<(), AllocError>
    requires function { IsFunc s.now.facts.now function }
    requires operands { All (Contains (cells_of known.now)) operands.now }
    requires outs { All (Contains (cells_of known.now)) (numbers.out_cells s.now.facts.now function) }
    ensures { OnOk result ((x : Contents) → Has known.now x → asked.new ≡ asked.old ++ g.call s.now.facts.now operands.now results.now x function) }
{
    pass(asked, s, function, operands, known)?;
    give_back(asked, s, function, results, known, near)?;
    Ok(())
}

/// What a call asks for of the functions of a reach.
fn call_reach(
    alloc: Global,
    s: &System<'_>,
    reach: Reach,
    operands: &[usize],
    results: &[usize],
    known: &[(usize, Content)],
) -> Result<List<(usize, Content)>, AllocError>
    requires head { IsHead s.now.facts.now reach }
    requires operands { All (Contains (cells_of known.now)) operands.now }
    requires outs { All (Contains (cells_of known.now)) (flat_map (numbers.out_cells s.now.facts.now) (kept.callable s.now.facts.now s.now.links (Callees.Under reach))) }
    ensures { IfOk result (λ asked. (x : Contents) → Has known.now x → asked ≡ flat_map (g.call s.now.facts.now operands.now results.now x) (kept.callable s.now.facts.now s.now.links (Callees.Under reach))) }
{
    let mut asked = List::new(alloc);
    let mut near = operands.len().saturating_add(1);
    'functions: for function in s.functions(reach) {
        let ty = s.type_of(*function);
        if reach.covers(s.facts, ty) {
            call(&mut asked, s, *function, operands, results, known, near)?;
            near = near.saturating_add(results_of(s.facts, ty));
        }
    }
    Ok(asked)
}

/// What a call asks for of one function, if it can be called by reference.
fn call_one(
    alloc: Global,
    s: &System<'_>,
    function: u32,
    operands: &[usize],
    results: &[usize],
    known: &[(usize, Content)],
) -> Result<List<(usize, Content)>, AllocError>
    requires function { IsFunc s.now.facts.now function }
    requires operands { All (Contains (cells_of known.now)) operands.now }
    requires outs { All (Contains (cells_of known.now)) (flat_map (numbers.out_cells s.now.facts.now) (kept.callable s.now.facts.now s.now.links (Callees.One function))) }
    ensures { IfOk result (λ asked. (x : Contents) → Has known.now x → asked ≡ flat_map (g.call s.now.facts.now operands.now results.now x) (kept.callable s.now.facts.now s.now.links (Callees.One function))) }
{
    let mut asked = List::new(alloc);
    if !s.is_callable(function) {
        return Ok(asked);
    }
    let near = operands.len().saturating_add(1);
    call(&mut asked, s, function, operands, results, known, near)?;
    Ok(asked)
}

/// What a call by reference asks for.
pub(crate) fn call_by(
    alloc: Global,
    s: &System<'_>,
    callees: Callees,
    operands: &[usize],
    results: &[usize],
    known: &[(usize, Content)],
) -> Result<List<(usize, Content)>, AllocError>
    requires callees { AreCallees s.now.facts.now callees }
    requires operands { All (Contains (cells_of known.now)) operands.now }
    requires outs { All (Contains (cells_of known.now)) (flat_map (numbers.out_cells s.now.facts.now) (kept.callable s.now.facts.now s.now.links callees)) }
    ensures { IfOk result (λ asked. (x : Contents) → Has known.now x → asked ≡ flat_map (g.call s.now.facts.now operands.now results.now x) (kept.callable s.now.facts.now s.now.links callees)) }
{
    match callees {
        Callees::Nobody => Ok(List::new(alloc)),
        Callees::Under(reach) => call_reach(alloc, s, reach, operands, results, known),
        Callees::One(function) => call_one(alloc, s, function, operands, results, known),
    }
}
