//! The answers of tfs_addr for a few texts. A call that is refused memory prints `out of memory`,
//! and the following calls are made nonetheless.

use anyhow::Result;
use std::alloc::Global;
use tfs_addr::{AddrFault, Key, Mode, config_text, instance_text, strip};

/// Module paths: valid texts, with keys and without, and invalid ones.
const MODULES: [&str; 8] = [
    "",
    "module.m",
    "module.m[7]",
    "module.m[\"p.q]\"].module.n[0]",
    "[0]",
    "module.m]",
    "module.m[7",
    "module.m[\"p\"]]",
];

/// Keys of instances, and deposed keys.
const KEYS: [(Option<Key<'static>>, Option<&'static str>); 4] = [
    (None, None),
    (Some(Key::Number(12)), None),
    (Some(Key::Text("a \"quoted\" \\ key\n")), Some("ab12")),
    (None, Some("")),
];

/// Prints the answers of all three calls.
pub(crate) fn print_answers(rt: &(impl AllocGlobal + Print)) -> Result<()> {
    for module in MODULES {
        print_answer(rt, "strip", strip(rt.alloc(), module))?;
        print_answer(rt, "config", config(rt.alloc(), module))?;
    }
    for (key, deposed) in KEYS {
        print_answer(rt, "instance", instance(rt.alloc(), "", key, deposed))?;
        print_answer(
            rt,
            "instance",
            instance(rt.alloc(), "module.m[7]", key, deposed),
        )?;
    }
    Ok(())
}

/// Returns the configuration address of a data source in a module.
fn config(alloc: Global, module: &str) -> Result<String, AddrFault> {
    config_text(alloc, module, Mode::DataSource, "aws_ami", "base")
}

/// Returns the address of an instance of a managed resource in a module.
fn instance(
    alloc: Global,
    module: &str,
    key: Option<Key>,
    deposed: Option<&str>,
) -> Result<String, AddrFault> {
    let text = instance_text(
        alloc,
        module,
        Mode::Managed,
        "aws_vpc",
        "main",
        key,
        deposed,
    )?;
    Ok(text)
}

/// Prints an answer on a line.
fn print_answer(rt: &impl Print, call: &str, answer: Result<String, AddrFault>) -> Result<()> {
    match answer {
        Ok(text) => println!(rt; "{call}: {text}")?,
        Err(fault) => println!(rt; "{call}: {fault}")?,
    }
    Ok(())
}
