//! Writing dependency expressions.

ghost use Rattle.std.specs.Prelude.{◌≡◌, ◌∷◌, ◌++◌, OnOk, IfOk, IfErr};
ghost use Rattle.fv_depex.specs.OpChecks.{depex_out_of_memory};
ghost use Rattle.fv_depex.specs.Expressions.{Spells, op_code, op_operand, ops_bytes};

use crate::depex::Depex;
use crate::fault::DepexFault;
use crate::op::Op;
use fv_base::ByteList;
use std::alloc::{AllocError, Global};

// Appends the bytes of an op.
fn push_op(bytes: &mut Vec<u8>, op: &Op) -> Result<(), AllocError>
    ensures { OnOk result (bytes.new.items ≡ bytes.old.items ++ (op_code op.now ∷ op_operand op.now)) }
{
    bytes.push(op.code())?;
    if let Op::Before(guid) | Op::After(guid) | Op::Push(guid) = op {
        bytes.extend_from_slice(&guid.to_bytes())?;
    }
    Ok(())
}

// Returns the bytes of some ops, followed by the rest.
fn spelled(alloc: Global, ops: &[Op], rest: &[u8]) -> Result<Vec<u8>, AllocError>
    ensures { IfOk result (λ v. v.items ≡ ops_bytes ops.now ++ rest.now) }
{
    let mut bytes = Vec::new(alloc);
    for op in ops {
        push_op(&mut bytes, op)?;
    }
    bytes.extend_from_slice(rest)?;
    Ok(bytes)
}

/// Returns the bytes of an expression: each op's code, with the GUID of an op that carries one, and
/// then the bytes after END. These are the bytes from which the expression was read. (PI
/// specification, volume 1, section 5.7, and volume 2, section 10.7.)
///
/// # Errors
///
/// OutOfMemory.
pub fn depex_bytes(alloc: Global, depex: &Depex) -> Result<ByteList, DepexFault>
    // The returned bytes spell the expression.
    ensures spells { IfOk result (λ b. Spells depex.now.phase depex.now.ops depex.now.rest b) }

    // They are the bytes of its ops, followed by its rest.
    ensures bytes { IfOk result (λ b. b ≡ ops_bytes depex.now.ops ++ depex.now.rest) }

    // The only error is OutOfMemory.
    ensures err { IfErr result (λ f. f ≡ depex_out_of_memory) }
{
    let bytes = spelled(alloc, depex.ops(), depex.rest())?;
    Ok(ByteList::from_vec(bytes))
}
