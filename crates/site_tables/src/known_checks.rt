//! Tests of the conditions of a table.
ghost use Rattle.std.specs.Prelude.{◌≡◌, ◌↔◌, [], ◌∷◌, ℕ, suc, pos, IsTrue, MatchOption, ◌≢◌};
ghost use Rattle.sqlite.specs.declared.types.Value.TheVariants.{Int};
ghost use Rattle.sqlite.specs.Term.{lit, col, op2};
ghost use Rattle.sqlite_sql.specs.declared.ops.BinaryOp.TheVariants.{Or};
ghost use Rattle.sqlite_schema.specs.Code.{term_to};
ghost use Rattle.site_tables.specs.Known.{checks_as};
ghost use Rattle.site_tables.specs.Tables.{equals};

use crate::declarations::Check;
use sqlite_schema::code::{Op, Terms};
use sqlite_sql::ops::{BinaryOp, CompareOp};
use sqlite_value::keys::Collation;
use sqlite_value::value::Value;

/// Whether a node is the column at a place.
fn is_place(nodes: &[Op], at: usize, place: usize) -> bool
    ensures { (depth : ℕ) → (IsTrue result ↔ (term_to nodes.now (suc depth) at ≡ col 1 place)) }
{
    match nodes.get(at) {
        Some(Op::Column(1, found)) => *found == place,
        _ => false,
    }
}

/// Whether a node is this number.
fn is_literal(nodes: &[Op], at: usize, number: u8) -> bool
    ensures { (depth : ℕ) → (IsTrue result
        ↔ (term_to nodes.now (suc depth) at ≡ lit (Int (pos number)))) }
{
    match nodes.get(at) {
        Some(Op::Literal(Value::Int(found))) => *found == i64::from(number),
        _ => false,
    }
}

/// Whether a node says that the column at a place is this number.
fn is_equality(nodes: &[Op], at: usize, place: usize, number: u8) -> bool
    ensures { (depth : ℕ) → (IsTrue result
        ↔ (term_to nodes.now (suc (suc depth)) at ≡ equals place number)) }
{
    match nodes.get(at) {
        Some(Op::Binary(BinaryOp::Compare(CompareOp::Eq, Collation::Binary), a, b)) => {
            let is_column = is_place(nodes, *a, place);
            let is_number = is_literal(nodes, *b, number);
            is_column && is_number
        }
        _ => false,
    }
}

/// Whether a node says that the column at a place is 0 or 1.
fn is_zero_or_one(nodes: &[Op], at: usize, place: usize) -> bool
    ensures { (depth : ℕ) → (IsTrue result
        ↔ (term_to nodes.now (suc (suc (suc depth))) at ≡ op2 Or (equals place 0)
        (equals place 1))) }
{
    match nodes.get(at) {
        Some(Op::Binary(BinaryOp::Or, a, b)) => {
            let is_zero = is_equality(nodes, *a, place, 0);
            let is_one = is_equality(nodes, *b, place, 1);
            is_zero && is_one
        }
        _ => false,
    }
}

/// The root, where there is one alone.
fn one_root(roots: &[usize]) -> Option<usize>
    ensures { MatchOption result ((root : ℕ)
        → roots.now ≢ root ∷ []) (λ root. roots.now ≡ root ∷ []) }
{
    match roots {
        [root] => Some(*root),
        _ => None,
    }
}

/// Whether the only condition is that the column at a place is 1.
fn checks_one(checks: &Terms, place: usize) -> bool
    ensures { IsTrue result ↔ (checks.now ≡ equals place 1 ∷ []) }
{
    let nodes = checks.nodes.as_slice();
    match one_root(checks.roots.as_slice()) {
        Some(root) => nodes.len() >= 2 && is_equality(nodes, root, place, 1),
        None => false,
    }
}

/// Whether the only condition is that the column at a place is 0 or 1.
fn checks_zero_or_one(checks: &Terms, place: usize) -> bool
    ensures { IsTrue result ↔ (checks.now ≡ op2 Or (equals place 0) (equals place 1) ∷ []) }
{
    let nodes = checks.nodes.as_slice();
    match one_root(checks.roots.as_slice()) {
        Some(root) => nodes.len() >= 3 && is_zero_or_one(nodes, root, place),
        None => false,
    }
}

/// Whether there is no condition.
fn checks_nothing(checks: &Terms) -> bool
    ensures { IsTrue result ↔ (checks.now ≡ []) }
{
    checks.roots.is_empty()
}

/// Whether the conditions are these.
pub fn has_checks(checks: &Terms, check: Check) -> bool
    ensures { IsTrue result ↔ (checks.now ≡ checks_as check) }
{
    match check {
        Check::Nothing => checks_nothing(checks),
        Check::IsOne(place) => checks_one(checks, place),
        Check::IsZeroOrOne(place) => checks_zero_or_one(checks, place),
    }
}
