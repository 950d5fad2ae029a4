//! Thesauri in a keeper in memory.

use ct_base::{Memory, Name};
use ct_keep::{Batch, KeepFault, MemKeeper};
use std::alloc::Global;
use std::test::Fail;
use test_keepers::{commit, named, new_keeper};
use th_store::{create, names};

/// The change by which there is a thesaurus of this name.
fn created(alloc: Global, name: &str) -> Result<Batch, Memory> {
    let name = named(alloc, name)?;
    let mut batch = Batch::new(alloc);
    create(alloc, &mut batch, &name)?;
    Ok(batch)
}

/// A keeper in memory with thesauri of these names.
fn stored(alloc: Global, created_names: &[&str]) -> Result<MemKeeper, KeepFault> {
    let mut keeper = new_keeper(alloc)?;
    for name in created_names {
        let batch = created(alloc, name)?;
        commit(alloc, &mut keeper, batch)?;
    }
    Ok(keeper)
}

/// Names, each with a blank behind it.
fn names_text(alloc: Global, names: &[Name]) -> Result<String, Memory> {
    let mut line = String::new(alloc);
    for name in names {
        line.push_str(name.as_str())?;
        line.push_str(" ")?;
    }
    Ok(line)
}

fn stored_line(alloc: Global, created_names: &[&str]) -> Result<String, KeepFault> {
    let mut keeper = stored(alloc, created_names)?;
    let found = names(alloc, &mut keeper)?;
    Ok(names_text(alloc, &found)?)
}

/// The names by which thesauri are created, in turn, and those that there are then.
static NAMES: [(&[&str], &str); 3] = [
    (&[], ""),
    (&["wine"], "wine "),
    (
        &["wine", "dogs", "animals", "dog", "wine"],
        "animals dog dogs wine ",
    ),
];

#[test]
fn names_in_order(rt: HostRuntime) -> Result<(), Fail> {
    for (created_names, line) in &NAMES {
        let found = stored_line(rt.alloc(), created_names)?;
        assert_eq!(rt; found.as_str(), *line);
    }
    Ok(())
}
