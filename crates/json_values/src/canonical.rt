//! A kind of value in JSON: how it is written, and what is read as it.
ghost use Rattle.std.specs.Prelude.{◌≡◌, ◌≤◌, ℕ, false, Option, Some, IfOk, IfSome};
ghost use Rattle.serde_json.specs.Data.{Data, depth};
ghost use Rattle.serde_json.specs.View.{view};
ghost use Rattle.serde_json.specs.Written.{has_float};

use serde_json::Value;
use std::alloc::{AllocError, Global};

/// A value that has a kind in JSON. Its canonical form is one value of `serde_json`; what is read may be written in
/// other forms too.
pub trait Json: Drop {
    // the canonical form
    ghost json: { Self → Data };

    // what a value is read as
    ghost json_in: { Data → Option Self };

    // the limits: what is read is within them
    ghost IsWithin: { Self → Type 0 };

    // how deep arrays and objects nest at most
    ghost nesting: { ℕ };

    /// The canonical form. A value is within the limits of its kind where some form is read as it.
    fn to_value(&self, alloc: Global) -> Result<Value, AllocError>
        requires { IsWithin self.now }
        ensures { IfOk result (λ value. view value ≡ json self.now) };

    /// What a value stands for; none where it is of another kind.
    fn from_value(alloc: Global, value: &Value) -> Result<Option<Self>, AllocError>
        ensures value { IfOk result (λ found. found ≡ json_in (view value.now)) }
        ensures within { IfOk result (λ found. IfSome found IsWithin) };

    // The laws: what is written is read as what it was, it has no float, and it nests no deeper.
    ghost reads_back: { (x : Self) → IsWithin x → json_in (json x) ≡ Some x };

    ghost plain: { (x : Self) → has_float (json x) ≡ false };

    ghost shallow: { (x : Self) → depth (json x) ≤ nesting };
}
