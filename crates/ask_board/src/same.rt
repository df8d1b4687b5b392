//! Whether two values are the same.
ghost use Rattle.std.specs.Prelude.{◌≡◌, ◌↔◌, IsTrue};

use join_base::Value;

pub(crate) fn same_value(own: &Value, other: &Value) -> bool
    ensures { IsTrue result ↔ own.now ≡ other.now }
{
    match (own, other) {
        (Value::Int(number), Value::Int(second)) => *number == *second,
        (Value::Words(text), Value::Words(second)) => text.bytes() == second.bytes(),
        _ => false,
    }
}
