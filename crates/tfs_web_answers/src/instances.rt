//! The instances of a state, as JSON: their addresses, resources and dependencies.

ghost use Rattle.std.specs.Prelude.{◌≡◌, ◌<◌, ◌++◌, ◌∷◌, [], length, map, Some, IfOk, OnOk, string_bytes};
ghost use Rattle.std.specs.List.{range_with_len};
ghost use Rattle.std.specs.Option.{option_to_list};
ghost use Rattle.serde_json.specs.View.{view};
ghost use Rattle.tfs_web_answers.specs.Instances.{HasRows, answer_of, instance_row, rows_of, row_text, whole};

use serde_json::{Value, json};
use std::alloc::{AllocError, Global};
use tfs_state::{Doc, Numbers};

/// Returns all instances of a state, with the journal's position.
pub fn instances_text(alloc: Global, doc: &Doc, position: u64) -> Result<String, AllocError>
    ensures { IfOk result (λ text. HasRows doc.now (range_with_len 0 (length doc.now.instances)) position (string_bytes text)) }
{
    let all = numbers_below(alloc, doc.len())?;
    chosen_text(alloc, doc, all.as_slice(), position)
}

/// Returns the numbers below a limit.
fn numbers_below(alloc: Global, limit: usize) -> Result<Vec<usize>, AllocError>
    ensures { IfOk result (λ numbers. numbers.items ≡ range_with_len 0 limit) }
{
    (0..limit).collect(alloc)
}

/// Returns the chosen instances of a state, with the journal's position.
pub fn chosen_text(
    alloc: Global,
    doc: &Doc,
    chosen: &[usize],
    position: u64,
) -> Result<String, AllocError>
    ensures { IfOk result (λ text. HasRows doc.now chosen.now position (string_bytes text)) }
{
    let numbers = doc.numbers();
    let rows = chosen_rows(alloc, doc, &numbers, chosen)?;
    let answer = answer_of(alloc, doc, rows, position)?;
    answer.to_string(alloc)
}

/// Returns the answer with these rows.
fn answer_of(alloc: Global, doc: &Doc, rows: Vec<Value>, position: u64) -> Result<Value, AllocError>
    ensures { IfOk result (λ answer. view answer ≡ answer_of doc.now (map view rows.items) position) }
{
    let serial = doc.serial();
    json!(in alloc; {"instances": rows, "position": position, "serial": serial})
}

/// Returns the rows of the chosen instances. Skips numbers without an instance.
fn chosen_rows(
    alloc: Global,
    doc: &Doc,
    numbers: &Numbers<'_>,
    chosen: &[usize],
) -> Result<Vec<Value>, AllocError>
    requires configs { length numbers.now.configs ≡ length doc.now.instances }
    requires dependencies { length numbers.now.dependencies ≡ length doc.now.instances }
    ensures { IfOk result (λ rows. map view rows.items ≡ rows_of doc.now numbers.now chosen.now) }
{
    let mut rows = Vec::with_capacity(alloc, chosen.len())?;
    for number in chosen {
        push_row(alloc, &mut rows, doc, numbers, *number)?;
    }
    Ok(rows)
}

/// Adds the row of an instance, if there is one with the number.
fn push_row(
    alloc: Global,
    rows: &mut Vec<Value>,
    doc: &Doc,
    numbers: &Numbers<'_>,
    number: usize,
) -> Result<(), AllocError>
    requires configs { length numbers.now.configs ≡ length doc.now.instances }
    requires dependencies { length numbers.now.dependencies ≡ length doc.now.instances }
    ensures { OnOk result (map view rows.new.items ≡ map view rows.old.items
        ++ option_to_list (instance_row doc.now numbers.now number)) }
{
    if number < doc.len() {
        rows.push(instance_row(alloc, doc, numbers, number)?)?;
    }
    Ok(())
}

/// Returns the row of an instance: its address, the configuration address of its resource with a
/// number for it, and the numbers of the resources that it depends on.
fn instance_row(
    alloc: Global,
    doc: &Doc,
    numbers: &Numbers<'_>,
    number: usize,
) -> Result<Value, AllocError>
    requires within { number < length doc.now.instances }
    requires configs { length numbers.now.configs ≡ length doc.now.instances }
    requires dependencies { length numbers.now.dependencies ≡ length doc.now.instances }
    ensures { IfOk result (λ row. instance_row doc.now numbers.now number ≡ Some (view row)) }
{
    let address = doc.address(number);
    let address = format!(in alloc; "{address}")?;
    row_of(
        alloc,
        address.as_str(),
        doc.config(number),
        numbers.config(number),
        numbers.dependencies(number),
    )
}

/// Returns the row with these members.
fn row_of(
    alloc: Global,
    address: &str,
    resource: &str,
    own: u32,
    needs: &[u32],
) -> Result<Value, AllocError>
    ensures { IfOk result (λ row. view row ≡ row_text address.now resource.now own needs.now) }
{
    let needs = number_values(alloc, needs)?;
    json!(in alloc; {"address": address, "dependencies": needs, "number": own, "resource": resource})
}

/// Returns numbers as JSON.
fn number_values(alloc: Global, numbers: &[u32]) -> Result<Vec<Value>, AllocError>
    ensures { IfOk result (λ values. map view values.items ≡ map whole numbers.now) }
{
    let mut values = Vec::with_capacity(alloc, numbers.len())?;
    for number in numbers {
        push_number(&mut values, *number)?;
    }
    Ok(values)
}

/// Adds a number as JSON.
fn push_number(values: &mut Vec<Value>, number: u32) -> Result<(), AllocError>
    ensures { OnOk result (map view values.new.items ≡ map view values.old.items ++ whole number ∷ []) }
{
    values.push(Value::from(number))?;
    Ok(())
}
