//! Evaluating dependency expressions.

ghost use Rattle.std.specs.Prelude.{◌≡◌, if◌then◌else◌, true, None, Some, [], ◌∷◌, ◌<◌, length, reverse};
ghost use Rattle.std.specs.Prelude.{IfSome, IfNone, IfOk, IfErr};
ghost use Rattle.std.specs.List.{list_any};
ghost use Rattle.fv_depex.specs.OpChecks.{depex_out_of_memory};
ghost use Rattle.fv_depex.specs.inner.Ops.{evaluate_op, evaluate_ops, pushes, top};
ghost use Rattle.fv_depex.specs.Expressions.{Expression, IsTree, IsOrder, is_among, truth};

use crate::depex::Depex;
use crate::fault::DepexFault;
use crate::op::Op;
use fv_base::Guid;
use std::alloc::{AllocError, Global};

// Returns whether a GUID is among the installed GUIDs.
fn is_among(guid: &Guid, installed: &[Guid]) -> bool
    ensures { result ≡ is_among guid.now installed.now }
{
    installed.iter().any(|other| other == guid)
}

// Pops the two values on top of a stack, and returns the lower value first. Returns None if the stack
// holds fewer than two values; the stack is empty then.
fn pop_two(stack: &mut Vec<bool>) -> Option<(bool, bool)>
    ensures found { IfSome result (λ p. reverse stack.old.items ≡ p.1 ∷ p.0 ∷ reverse stack.new.items) }
    ensures none { IfNone result (length stack.old.items < 2) }
{
    let second = stack.pop()?;
    let first = stack.pop()?;
    Some((first, second))
}

// Pops the value on top of a stack, if there is one.
fn pop(stack: &mut Vec<bool>) -> Option<bool>
    ensures { result ≡ top (reverse stack.old.items) }
{
    stack.pop()
}

// Pushes a value, and returns true.
fn push(stack: &mut Vec<bool>, value: bool) -> Result<bool, AllocError>
    ensures done { IfOk result (λ done. done ≡ true) }
    ensures pushed { IfOk result (λ _. reverse stack.new.items ≡ value ∷ reverse stack.old.items) }
{
    stack.push(value)?;
    Ok(true)
}

// Evaluates one op on the stack. Returns false if the stack does not hold the values that the op
// takes, or if the op is BEFORE or AFTER.
fn evaluate_op(stack: &mut Vec<bool>, op: &Op, installed: &[Guid]) -> Result<bool, AllocError>
    ensures done { IfOk result (λ done. evaluate_op installed.now (reverse stack.old.items) op.now
        ≡ (if done then Some (reverse stack.new.items) else None)) }
    ensures memory { IfErr result (λ _. pushes op.now ≡ true) }
{
    match op {
        Op::Push(guid) => push(stack, is_among(guid, installed)),
        Op::True => push(stack, true),
        Op::False => push(stack, false),
        Op::Not => match stack.pop() {
            Some(value) => push(stack, !value),
            None => Ok(false),
        },
        Op::And => match pop_two(stack) {
            Some((first, second)) => push(stack, first && second),
            None => Ok(false),
        },
        Op::Or => match pop_two(stack) {
            Some((first, second)) => push(stack, first || second),
            None => Ok(false),
        },
        Op::End | Op::Sor => Ok(true),
        Op::Before(_) | Op::After(_) => Ok(false),
    }
}

// Returns the value that the ops leave on top of the stack, or None if an op cannot be evaluated or
// no value is left.
fn evaluate_ops(alloc: Global, ops: &[Op], installed: &[Guid]) -> Result<Option<bool>, DepexFault>
    ensures value { IfOk result (λ v. v ≡ evaluate_ops installed.now ops.now []) }
    ensures err { IfErr result (λ f. f ≡ depex_out_of_memory) }
    ensures memory { IfErr result (λ _. list_any pushes ops.now ≡ true) }
{
    let mut stack = Vec::new(alloc);
    for op in ops {
        if !evaluate_op(&mut stack, op, installed)? {
            return Ok(None);
        }
    }
    Ok(pop(&mut stack))
}

/// Returns the truth value of an expression when exactly the protocols (in PEI, the PPIs) with
/// these GUIDs are installed, or None for BEFORE and AFTER, which have no truth value. SOR does not
/// change the value. Each PUSH searches the installed GUIDs, so the time grows with the number of
/// ops times the number of GUIDs. (PI specification, volume 1, section 5.7, and volume 2, section
/// 10.7.)
///
/// # Errors
///
/// OutOfMemory, only if a tree has these ops (`IsTree`), and so never for BEFORE and AFTER.
pub fn evaluate(
    alloc: Global,
    depex: &Depex,
    installed: &[Guid],
) -> Result<Option<bool>, DepexFault>
    // If a tree has these ops (`IsTree`), the result is the truth value of the tree.
    ensures truth { IfOk result
        (λ v. (t : Expression) → IsTree depex.now.phase depex.now.ops t → v ≡ Some (truth installed.now t)) }

    // For BEFORE and AFTER, the result is None.
    ensures order { IfOk result (λ v. IsOrder depex.now.phase depex.now.ops → v ≡ None) }

    // At most one tree has these ops.
    ensures tree { (t u : Expression) → IsTree depex.now.phase depex.now.ops t → IsTree depex.now.phase depex.now.ops u
        → t ≡ u }

    // The only error is OutOfMemory, and only if a tree has these ops.
    ensures err { IfErr result (λ f. f ≡ depex_out_of_memory) }
    ensures memory { IfErr result (λ _. (t : Expression) × IsTree depex.now.phase depex.now.ops t) }
{
    evaluate_ops(alloc, depex.ops(), installed)
}
