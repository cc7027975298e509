// An expression part by part, so that a part can be read again without the others.
ghost use Rattle.std.specs.Prelude.{◌≡◌, ◌+◌, ◌<◌, ◌^◌, IfOk, length, map, option_and_then, true};
ghost use Rattle.std.specs.List.{list_all};
ghost use Rattle.expression_text.specs.Expression.{expression_of};
ghost use Rattle.watch_expr.specs.Parts.{body_of_parts, first_value, node_of_part, part_count, nth_part, parts_of, value_of_parts};
ghost use Rattle.watch_expr.specs.Reads.{is_low_place};
ghost use Rattle.watch_expr.specs.Value.{aggregate_over, all_numbers};

use crate::reads::{Place, read};
use crate::value::tally::Tally;
use crate::view::View;
use expression_text::{Agg, Expr};
use std::alloc::{AllocError, Global};
use std::marker::Model;

/// A part of an expression: its value, where `None` stands for undef, and what it is read from.
#[derive(Drop)]
pub struct Reading {
    value: Option<i64>,
    places: Vec<Place>,
}

impl Model for Reading {
    ghost use Rattle.watch_expr.specs.Parts.{Part};

    ghost Value = { Part };

    ghost use Rattle.std.specs.Prelude.{◌≡◌, true};
    ghost use Rattle.std.specs.List.{list_all};
    ghost use Rattle.watch_expr.specs.Reads.{is_low_place};

    ghost view = { λ r. record { value = r.value; places = r.places.items } };

    ghost invariant = { λ r. list_all is_low_place r.places.items ≡ true };
}

impl Reading {
    /// The value of the part.
    pub fn value(&self) -> Option<i64>
        ensures { result ≡ self.now.value }
    {
        self.value
    }

    /// What it was read from.
    pub fn places(&self) -> &[Place]
        ensures places { result.now ≡ self.now.places }
        ensures low { list_all is_low_place result.now ≡ true }
    {
        &self.places
    }
}

/// Reads each part of an expression over the nodes of the view. Each variable is undef.
pub fn read_parts<V: View>(alloc: Global, e: &Expr, v: &V) -> Result<Vec<Reading>, AllocError>
    ensures few { IfOk result (λ parts. length parts.items < 2 ^ 32) }
    ensures parts { IfOk result (λ parts. parts.items ≡ parts_of (V.nodes v.now) (expression_of e.now)) }
{
    let mut parts = Vec::new(alloc);
    for n in 0..part_count(e, v) {
        let part = read_part(alloc, e, v, n)?;
        parts.push(part)?;
    }
    Ok(parts)
}

/// Reads the part of this number.
pub fn read_part<V: View>(alloc: Global, e: &Expr, v: &V, n: u32) -> Result<Reading, AllocError>
    ensures { IfOk result (λ part. part ≡ nth_part (V.nodes v.now) (expression_of e.now) n) }
{
    let mut places = Vec::new(alloc);
    let value = read(body_of_parts(e), v, node_of_part(e, n), &mut places)?;
    Ok(Reading { value, places })
}

/// The value of an expression that has these parts.
pub fn value_of_parts(e: &Expr, parts: &[Reading]) -> Option<i64>
    requires { length parts.now < 2 ^ 32 }
    ensures { result ≡ value_of_parts (expression_of e.now) parts.now }
{
    match e {
        Expr::Over(agg, _) => value_over(*agg, parts),
        _ => first_value(parts),
    }
}

/// How many parts an expression has over the nodes of the view.
pub fn part_count<V: View>(e: &Expr, v: &V) -> u32
    ensures { result ≡ part_count (length (V.nodes v.now)) (expression_of e.now) }
{
    match e {
        Expr::Over(_, _) => v.node_count(),
        _ => 1,
    }
}

fn body_of_parts(e: &Expr) -> &Expr
    ensures { expression_of result.now ≡ body_of_parts (expression_of e.now) }
{
    match e {
        Expr::Over(_, x) => x,
        _ => e,
    }
}

fn node_of_part(e: &Expr, n: u32) -> Option<u32>
    ensures { result ≡ node_of_part (expression_of e.now) n }
{
    match e {
        Expr::Over(_, _) => Some(n),
        _ => None,
    }
}

fn first_value(parts: &[Reading]) -> Option<i64>
    ensures { result ≡ first_value parts.now }
{
    parts.first()?.value
}

// The aggregate of the values, which is undef if one of them is.
fn value_over(agg: Agg, parts: &[Reading]) -> Option<i64>
    requires { length parts.now < 2 ^ 32 }
    ensures { result ≡ option_and_then (aggregate_over agg) (all_numbers (map (λ p. p.value) parts.now)) }
{
    let mut tally = Tally::start(agg);
    for part in parts {
        tally = tally.add(part.value()?);
    }
    tally.total()
}
