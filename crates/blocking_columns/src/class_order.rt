//! The order of classes, as a law.

ghost use Rattle.std.specs.Prelude.{◌≡◌};
ghost use Rattle.blocking_columns.specs.ClassOrder.{class_cmp};
ghost use Rattle.blocking_columns.specs.declared.columns.Class.{Class};

use crate::columns::Class;

/// Classes compare as they are ranked: direct blocking, then indirect, then by preemption. This says so, and does nothing.
pub fn classes_stand_in_order()
    ensures { (a b : Class) → ⟦<Class as Ord>⟧.cmp a b ≡ class_cmp a b }
{}
