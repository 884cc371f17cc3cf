//! Dependency expressions.

ghost use Rattle.std.specs.Prelude.{◌≡◌};
ghost use Rattle.fv_depex.specs.Expressions.{IsReadDepex};

use crate::op::{Op, Phase};
use fv_base::ByteList;
use std::marker::Model;

/// A dependency expression: its ops, which end with END, and the bytes after END. Only `read_depex`
/// makes a value of this type. (PI specification, volume 1, section 5.7, and volume 2, section
/// 10.7.)
#[derive(Drop)]
pub struct Depex {
    phase: Phase,
    ops: Vec<Op>,
    rest: ByteList,
}

impl Model for Depex {
    ghost use Rattle.fv_depex.specs.Expressions.{DepexForm, IsReadDepex};

    ghost Value = { DepexForm };

    ghost view = { λ d. record { phase = d.phase; ops = d.ops.items; rest = d.rest } };

    ghost invariant = { λ d. IsReadDepex (record { phase = d.phase; ops = d.ops.items; rest = d.rest }) };
}

impl Depex {
    // Makes the expression with these ops and this rest.
    pub(crate) fn from_parts(phase: Phase, ops: Vec<Op>, rest: ByteList) -> Depex
        requires { IsReadDepex (record { phase = phase; ops = ops.items; rest = rest }) }
        ensures { result ≡ record { phase = phase; ops = ops.items; rest = rest } }
    {
        Depex { phase, ops, rest }
    }

    /// Returns the phase for which the expression was read.
    pub fn phase(&self) -> Phase
        ensures phase { result ≡ self.now.phase }

        // Some bytes spell this expression.
        ensures read { IsReadDepex self.now }
    {
        self.phase
    }

    /// Returns the ops in the order of their bytes. END is the last op. The ops preceding END are an
    /// expression in postfix notation, operands first, which may follow SOR; or a single BEFORE or
    /// AFTER.
    pub fn ops(&self) -> &[Op]
        ensures ops { result.now ≡ self.now.ops }

        // Some bytes spell this expression.
        ensures read { IsReadDepex self.now }
    {
        self.ops.as_slice()
    }

    /// Returns the bytes after END, as they were read.
    pub fn rest(&self) -> &[u8]
        ensures { result.now ≡ self.now.rest }
    {
        self.rest.as_slice()
    }
}
