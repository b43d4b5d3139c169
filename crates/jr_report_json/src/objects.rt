// An object that is made of a table of its members.
ghost use Rattle.std.specs.Prelude.{◌≡◌, IfOk, OnOk};
ghost use Rattle.jr_report_json.specs.Rows.{object_of, scalar_json, with_members};
ghost use Rattle.serde_json.specs.Data.{no_members, object, put as with_member};
ghost use Rattle.serde_json.specs.View.{members_view, view};

use serde_json::{Map, Value, put};
use std::alloc::{AllocError, Global};

// A value that has no parts.
#[derive(Clone, Copy)]
pub(crate) enum Scalar<'a> {
    Null,
    Flag(bool),
    Count(u64),
    Text(&'a str),
}

// The object of these members.
pub(crate) fn object_of(alloc: Global, members: &[(&str, Scalar<'_>)]) -> Result<Value, AllocError>
    ensures { IfOk result (λ value. view value ≡ object_of members.now) }
{
    let mut object = Map::new(alloc);
    put_all(&mut object, alloc, members)?;
    Ok(Value::Object(object))
}

// The object of these members and one more.
pub(crate) fn object_with(
    alloc: Global,
    members: &[(&str, Scalar<'_>)],
    name: &str,
    value: Value,
) -> Result<Value, AllocError>
    ensures { IfOk result (λ made. view made ≡ object (with_members members.now (with_member name.now (view value) no_members))) }
{
    let mut object = Map::new(alloc);
    put(&mut object, alloc, name, value)?;
    put_all(&mut object, alloc, members)?;
    Ok(Value::Object(object))
}

// Puts these members into an object.
fn put_all(
    object: &mut Map<String, Value>,
    alloc: Global,
    members: &[(&str, Scalar<'_>)],
) -> Result<(), AllocError>
    ensures { OnOk result (members_view object.new.entries ≡ with_members members.now (members_view object.old.entries)) }
{
    for (name, scalar) in members {
        put(object, alloc, name, value_of(alloc, *scalar)?)?;
    }
    Ok(())
}

fn value_of(alloc: Global, scalar: Scalar<'_>) -> Result<Value, AllocError>
    ensures { IfOk result (λ value. view value ≡ scalar_json scalar.entry) }
{
    match scalar {
        Scalar::Null => Ok(Value::Null),
        Scalar::Flag(flag) => Ok(Value::from(flag)),
        Scalar::Count(count) => Ok(Value::from(count)),
        Scalar::Text(text) => Value::try_from_str(alloc, text),
    }
}
