//! The rows of a keeper over a database, and a manager with room for calls.
ghost use Rattle.std.specs.Prelude.{◌≡◌, [], None};
ghost use Rattle.am_keeper.specs.Memory.{fresh_keeper};
ghost use Rattle.am_keeper.specs.Rows.{no_rows};

use am_keeper::{Attached, GrantRow, Keeper, LinkRow, MemoryKeeper, RowsBuilder};
use am_keeper_sql::attach_sql;
use am_machine::{SoleDesk, begin_fresh};
use am_manifest::read_device;
use am_types::{List, Text};
use std::alloc::Global;
use std::test::Fail;

/// A row that is put again takes the place of the earlier one.
#[test]
fn a_database_tells_its_rows(rt: HostRuntime) -> Result<(), Fail> {
    let alloc = rt.alloc();
    let Attached { mut keeper, rows } = attach_sql(&rt, alloc, None).ok().ok_or("attached")?;
    drop(rows);
    for held in [true, false] {
        let permission = Text::of(alloc, "p.X")?;
        let row = GrantRow {
            uid: 10000,
            permission,
            held,
        };
        keeper.put_grant(&row).ok().ok_or("a grant is put")?;
    }
    let host = Text::of(alloc, "h.org")?;
    let row = LinkRow {
        uid: 10001,
        host,
        approved: true,
    };
    keeper.put_link(&row).ok().ok_or("a link is put")?;
    let told = keeper.told().ok().ok_or("rows are told")?;
    assert_eq!(rt; told.packages.as_slice().len(), 0);
    assert_eq!(rt; told.grants.as_slice().len(), 1);
    assert!(rt;
        told.grants
            .as_slice()
            .iter()
            .all(|row| row.uid == 10000 && !row.held)
    );
    assert_eq!(rt; told.links.as_slice().len(), 1);
    assert!(rt;
        told.links
            .as_slice()
            .iter()
            .all(|row| row.host.as_str() == "h.org" && row.approved)
    );
    Ok(())
}

/// A keeper in memory without rows, none of whose calls fails.
fn empty_keeper(alloc: Global) -> MemoryKeeper
    ensures { result ≡ fresh_keeper no_rows None [] }
{
    let rows = RowsBuilder::new(alloc).finish();
    MemoryKeeper::new(alloc, rows, List::new(Vec::new(alloc)))
}

/// Room is not a call: the history is as before.
#[test]
fn a_manager_makes_room(rt: HostRuntime) -> Result<(), Fail> {
    let alloc = rt.alloc();
    let device = read_device(alloc, b"system_key = 'sys'")
        .ok()
        .ok_or("a device")?;
    let mut manager = begin_fresh(alloc, device, empty_keeper(alloc))?;
    manager.reserve(1000)?;
    assert_eq!(rt; manager.length(), 0);
    let _desk = SoleDesk::new(manager);
    Ok(())
}
