//! What the root sees, which no word of a command names: every package.

ghost use Rattle.am_model.specs.Sound.{IsSound};

use am_manifest_queries::{Described, read_described};
use am_resolve::Board;
use am_types::{NoMemory, Text};
use am_visible::{answer, sees};
use std::alloc::{AllocError, Global};
use std::test::Fail;

/// A device of two packages that ask to see nothing.
const DEVICE: &str = r#"system_key = "s"
package = [
    { key = "k0", manifest = { package = "one", activity = [{ name = "M", exported = false, intent-filter = [{ action = ["Q"] }] }] } },
    { key = "k1", manifest = { package = "two", activity = [{ name = "M", exported = false, intent-filter = [{ action = ["Q"] }] }] } },
]"#;

const QUERY: &[u8] = br#"{"kind":"activity","intent":{"action":"Q"}}"#;

/// Whether the root sees both packages.
fn sees_both(alloc: Global, known: Described) -> Result<bool, NoMemory>
    requires { IsSound known.device }
{
    let board = Board::from_device(alloc, known.device)?;
    let sees_one = sees(&board, &known.queries, 0, 10_000);
    let sees_two = sees(&board, &known.queries, 0, 10_001);
    drop(board);
    Ok(sees_one && sees_two)
}

fn is_all_seen(alloc: Global) -> Result<bool, NoMemory> {
    match read_described(alloc, DEVICE.as_bytes()) {
        Ok(known) => sees_both(alloc, known),
        Err(_) => Ok(false),
    }
}

/// The line without its newline, which must be there.
fn line_of(alloc: Global, line: &Text) -> Result<String, AllocError> {
    String::from_str(alloc, line.as_str().strip_suffix('\n').unwrap_or("no line"))
}

/// The answer to the root.
fn answered(alloc: Global) -> Result<String, AllocError> {
    let Ok(known) = read_described(alloc, DEVICE.as_bytes()) else {
        return String::from_str(alloc, "not read");
    };
    let Ok(line) = answer(alloc, known, 0, QUERY) else {
        return String::from_str(alloc, "no answer");
    };
    line_of(alloc, &line)
}

#[test]
fn the_root_sees_all(rt: HostRuntime) -> Result<(), Fail> {
    let alloc = rt.alloc();
    assert!(rt; is_all_seen(alloc)?);
    assert_eq!(rt;
        answered(alloc)?.as_str(),
        "{\"components\":[\"one/one.M\",\"two/two.M\"]}"
    );
    Ok(())
}
