//! Manifests that are longer than the body of a frame, and the queries of a device file alone.
use am_manifest::{print_fault, read_package};
use am_manifest_queries::read_queries;
use am_trials_words::{lent, try_documents};
use am_types::{ManifestFault, NoMemory, Text, Unmade};
use std::alloc::Global;
use std::test::Fail;

/// Manifests, each followed by a line with what becomes of it. `<3:a>` stands for `aaa`.
const MANIFESTS: &str = r#"package = "a"
#<65520:x>
= read
package = "a"
#<65521:x>
= over_limit text
"#;

/// The printed fault, or `read`.
fn package_outcome(alloc: Global, manifest: &str) -> Result<Text, NoMemory> {
    let text = Text::of(alloc, manifest)?;
    match read_package(alloc, &text) {
        Ok(manifest) => {
            drop(manifest);
            Ok(Text::of(alloc, "read")?)
        }
        Err(Unmade::Fault(fault)) => {
            let printed = print_fault(alloc, &fault);
            drop(fault);
            printed
        }
        Err(Unmade::NoMemory) => Err(NoMemory),
    }
}

/// What becomes of the manifest.
fn manifest_outcome(alloc: Global, manifest: &str) -> Result<String, Fail> {
    let outcome = package_outcome(alloc, manifest)?;
    Ok(String::from_str(alloc, outcome.as_str())?)
}

#[test]
fn manifests_have_65_536_bytes(rt: HostRuntime) -> Result<(), Fail> {
    let alloc = rt.alloc();
    try_documents(
        alloc,
        MANIFESTS,
        "\n",
        |document| manifest_outcome(alloc, document),
    )
}

/// Device files, each followed by a line with the names that its packages ask to see.
const ASKING: &str = r#"system_key = "s"
= read
system_key = "s"
package = [{ key = "k", manifest = { package = "com.a", queries = { package = ["com.b", "com.c"] } } }]
= read com.b com.c
system_key = "s"
package = 1
= wrong_kind package
"#;

/// What the packages of a device file ask to see.
fn asked_names(alloc: Global, device: &str) -> Result<String, Fail> {
    let read = match read_queries(alloc, device.as_bytes()) {
        Ok(read) => read,
        Err(Unmade::Fault(fault)) => return fault_line(alloc, fault),
        Err(Unmade::NoMemory) => Err(NoMemory)?,
    };
    let mut names = String::from_str(alloc, "read")?;
    for queries in read.as_slice() {
        for name in queries.names.as_slice() {
            names.push(' ')?;
            names.push_str(name.as_str())?;
        }
    }
    Ok(names)
}

/// The fault, as it is printed.
fn fault_line(alloc: Global, fault: ManifestFault) -> Result<String, Fail> {
    let printed = lent(fault, |fault| print_fault(alloc, fault))?;
    Ok(String::from_str(alloc, printed.as_str())?)
}

#[test]
fn queries_are_read_alone(rt: HostRuntime) -> Result<(), Fail> {
    let alloc = rt.alloc();
    try_documents(alloc, ASKING, "\n", |document| asked_names(alloc, document))
}
