//! Things that have a JSON value, and the values of several.

ghost use Rattle.std.specs.Prelude.{◌≡◌, List, IfOk, map};
ghost use Rattle.event_json.specs.Sites.{Site};
ghost use Rattle.serde_json.specs.Data.{Data, array};
ghost use Rattle.serde_json.specs.View.{items_of, view};

use event_json::Sites;
use serde_json::Value;
use std::alloc::{AllocError, Global};

/// What has a JSON value.
pub(crate) trait ToJson {
    /// The value, by the sites that are listed.
    ghost value: { List Site → Self → Data };

    fn json(&self, alloc: Global, sites: &Sites) -> Result<Value, AllocError>
        ensures { IfOk result (λ v. view v ≡ value sites.now self.now) };
}

/// The values of several.
pub(crate) fn values<T: ToJson>(
    alloc: Global,
    sites: &Sites,
    things: &[T],
) -> Result<Vec<Value>, AllocError>
    ensures { IfOk result (λ vs. map view vs.items ≡ map (T.value sites.now) things.now) }
{
    let mut values = Vec::new(alloc);
    for thing in things {
        values.push(thing.json(alloc, sites)?)?;
    }
    Ok(values)
}

/// An array of values.
pub(crate) fn array(values: Vec<Value>) -> Value
    ensures { view result ≡ array (items_of (map view values.items)) }
{
    Value::Array(values)
}
