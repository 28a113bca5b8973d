ghost use Rattle.std.specs.Prelude.{◌≡◌, option_map};
ghost use Rattle.serde_json.specs.View.{view};
ghost use Rattle.cl_rpc.specs.Messages.{text_in, whole_in};

use serde_json::Value;

/// The member of this name, where it is a string.
pub fn text_at<'a>(value: &'a Value, key: &str) -> Option<&'a str>
    ensures { option_map (λ s. s.now) result ≡ text_in key.now (view value.now) }
{
    value.get(key).and_then(Value::as_str)
}

/// The member of this name, where it is a whole number of 64 bits with sign.
pub fn whole_at(value: &Value, key: &str) -> Option<i64>
    ensures { result ≡ whole_in key.now (view value.now) }
{
    value.get(key).and_then(Value::as_i64)
}
