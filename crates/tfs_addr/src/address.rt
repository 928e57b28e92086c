//! The addresses of a configuration block and of its instances.

ghost use Rattle.std.specs.Prelude.{◌≡◌, ◌++◌, Some, IfOk, OnOk, string_bytes, option_map, option_copied};
ghost use Rattle.tfs_addr.specs.Address.{opening, closing, StopsBefore, GivesText, configuration_address, instance_address, key_of, module_part, resource_part, key_part, deposed_part};

use crate::fault::AddrFault;
use crate::json::push_json;
use crate::resource::{Key, Mode};
use crate::stripping::strip;
use std::alloc::{AllocError, Global};

/// The length of two dots and of `data.`.
const DOTS_AND_MODE: usize = 7;

/// Returns the address of a configuration block, as `dependencies` name it: the module's path
/// without keys and a dot, `data.` for a data source, and the resource's type (`kind`) and name
/// with a dot between them. The root module's path is empty and has no dot. Type and name are
/// copied unchanged.
///
/// # Errors
///
/// Returns the errors of `strip` for the module's path.
pub fn config_text(
    alloc: Global,
    module: &str,
    mode: Mode,
    kind: &str,
    name: &str,
) -> Result<String, AddrFault>
    ensures value { GivesText result (configuration_address «module».now mode kind.now name.now) }
    ensures unclosed { result ≡ Err AddrFault.Unclosed → StopsBefore «module».now opening }
    ensures stray_bracket { result ≡ Err AddrFault.StrayBracket → StopsBefore «module».now closing }
{
    let mut text = strip(alloc, module)?;
    if !module.is_empty() {
        text.push('.')?;
    }
    push_resource(&mut text, mode, kind, name)?;
    Ok(text)
}

/// Returns the address of one instance: the unchanged module's path and a dot, `data.` for a data
/// source, type and name, the instance's key in brackets, and ` (deposed KEY)` for a deposed
/// object. A number is written in decimal and a text as JSON (RFC 8259, section 7). Fails only if
/// memory is exhausted.
///
/// An empty deposed key is printed too, as `t.n (deposed )`. In states an empty text means that the
/// object isn't deposed, so a caller that reads states passes `None` for it.
pub fn instance_text(
    alloc: Global,
    module: &str,
    mode: Mode,
    kind: &str,
    name: &str,
    key: Option<Key>,
    deposed: Option<&str>,
) -> Result<String, AllocError>
    ensures value { IfOk result (λ text. string_bytes text
        ≡ instance_address «module».now mode kind.now name.now (option_map key_of key.entry)
        (option_copied deposed.entry)) }
{
    let mut text = front_text(alloc, module, mode, kind, name)?;
    push_tail(&mut text, key, deposed)?;
    Ok(text)
}

/// Returns the beginning of the addresses of a resource's instances: the unchanged module's path
/// and a dot, `data.` for a data source, type and name. Reserves at most seven bytes more than
/// that.
pub fn front_text(
    alloc: Global,
    module: &str,
    mode: Mode,
    kind: &str,
    name: &str,
) -> Result<String, AllocError>
    ensures value { IfOk result (λ text. string_bytes text
        ≡ module_part «module».now «module».now ++ resource_part mode kind.now name.now) }
{
    let names = kind.len().saturating_add(name.len());
    let room = module
        .len()
        .saturating_add(names)
        .saturating_add(DOTS_AND_MODE);
    let mut text = String::with_capacity(alloc, room)?;
    text.push_str(module)?;
    if !module.is_empty() {
        text.push('.')?;
    }
    push_resource(&mut text, mode, kind, name)?;
    Ok(text)
}

/// Returns the end of an instance's address: its key in brackets, and ` (deposed KEY)` for a
/// deposed object. The text has no spare capacity unless the allocator refuses to shrink it.
pub fn tail_text(
    alloc: Global,
    key: Option<Key>,
    deposed: Option<&str>,
) -> Result<String, AllocError>
    ensures value { IfOk result (λ text. string_bytes text
        ≡ key_part (option_map key_of key.entry) ++ deposed_part (option_copied deposed.entry)) }
{
    let mut text = String::new(alloc);
    push_tail(&mut text, key, deposed)?;
    text.shrink_to_fit();
    Ok(text)
}

/// Appends the key in brackets and the key of a deposed object.
fn push_tail(text: &mut String, key: Option<Key>, deposed: Option<&str>) -> Result<(), AllocError>
    ensures { OnOk result (string_bytes text.new ≡ string_bytes text.old
        ++ key_part (option_map key_of key.entry) ++ deposed_part (option_copied deposed.entry)) }
{
    if let Some(key) = key {
        push_key(text, key)?;
    }
    if let Some(key) = deposed {
        push_deposed(text, key)?;
    }
    Ok(())
}

/// Appends the resource within its module.
fn push_resource(text: &mut String, mode: Mode, kind: &str, name: &str) -> Result<(), AllocError>
    ensures { OnOk result
        (string_bytes text.new ≡ string_bytes text.old ++ resource_part mode kind.now name.now) }
{
    if mode == Mode::DataSource {
        text.push_str("data.")?;
    }
    text.push_str(kind)?;
    text.push('.')?;
    text.push_str(name)
}

/// Appends the key in brackets.
fn push_key(text: &mut String, key: Key) -> Result<(), AllocError>
    ensures { OnOk result
        (string_bytes text.new ≡ string_bytes text.old ++ key_part (Some (key_of key.entry))) }
{
    match key {
        Key::Number(number) => write!(text, "[{number}]"),
        Key::Text(key) => {
            text.push('[')?;
            push_json(text, key)?;
            text.push(']')
        }
    }
}

/// Appends the key of a deposed object.
fn push_deposed(text: &mut String, key: &str) -> Result<(), AllocError>
    ensures { OnOk result
        (string_bytes text.new ≡ string_bytes text.old ++ deposed_part (Some key.now)) }
{
    write!(text, " (deposed {key})")
}
