//! The body of the reply to an impact query.

ghost use Rattle.std.specs.Prelude.{◌≡◌, ◌<◌, length, map, Some, option_map, string_bytes, IfOk};
ghost use Rattle.std.specs.Arc.{arc_value};
ghost use Rattle.serde_json.specs.Data.{string};
ghost use Rattle.serde_json.specs.View.{view};
ghost use Rattle.tfs_state.specs.Dependency.{address_of};
ghost use Rattle.tfs_http.specs.ReplyText.{address_texts, impact_data, impact_body};

use serde_json::{Value, json};
use std::alloc::{AllocError, Global};
use tfs_calls::Impact;
use tfs_state::Doc;

/// Returns the body of an impact's reply: JSON with the addresses of the chosen instances, the
/// position of the journal and the state's serial.
pub(crate) fn impact_body(alloc: Global, answer: &Impact) -> Result<String, AllocError>
    ensures { IfOk result (λ body. string_bytes body
        ≡ impact_body (arc_value answer.now.version) answer.now.chosen answer.now.position) }
{
    let value = impact_value(
        alloc,
        answer.version.doc(),
        answer.chosen.as_slice(),
        answer.position,
    )?;
    value.to_string(alloc)
}

/// Returns the same as a JSON value.
fn impact_value(
    alloc: Global,
    doc: &Doc,
    chosen: &[usize],
    position: u64,
) -> Result<Value, AllocError>
    ensures { IfOk result (λ value. view value ≡ impact_data doc.now chosen.now position) }
{
    let instances = addresses(alloc, doc, chosen)?;
    let serial = doc.serial();
    json!(in alloc; {"instances": instances, "position": position, "serial": serial})
}

/// Returns the addresses of the chosen instances as JSON texts. Skips numbers without an instance.
fn addresses(alloc: Global, doc: &Doc, chosen: &[usize]) -> Result<Vec<Value>, AllocError>
    ensures { IfOk result (λ texts. map view texts.items ≡ address_texts doc.now chosen.now) }
{
    let mut texts = Vec::with_capacity(alloc, chosen.len())?;
    for number in chosen {
        if *number < doc.len() {
            texts.push(address(alloc, doc, *number)?)?;
        }
    }
    Ok(texts)
}

/// Returns the address of an instance as a JSON text.
fn address(alloc: Global, doc: &Doc, number: usize) -> Result<Value, AllocError>
    requires { number < length doc.now.instances }
    ensures { IfOk result (λ text. option_map string (address_of doc.now number) ≡ Some (view text)) }
{
    let address = doc.address(number);
    Ok(Value::String(format!(in alloc; "{address}")?))
}
