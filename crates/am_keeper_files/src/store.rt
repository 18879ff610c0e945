//! The rows that are kept, in databases.
ghost use Rattle.std.specs.Prelude.{◌≡◌};

use crate::keeper::FileKeeper;
use am_keeper::{Attached, KeepFail, Store};
use am_keeper_sql::attach_sql;
use am_types::Text;
use std::alloc::Global;
use std::fs::OpenOptions;
use std::os::unix::fs::OpenOptionsExt;

/// The kept rows of databases: in the file at a place, or in memory if there is no place.
#[derive(Drop)]
pub struct SqlStore {
    rt: HostRuntime,
    alloc: Global,
    failed_attaches: u64,
    keeper_faults: u64,
}

impl SqlStore {
    /// A store over the files that the runtime reaches.
    pub fn new(rt: HostRuntime) -> SqlStore {
        SqlStore {
            alloc: rt.alloc(),
            rt,
            failed_attaches: 0,
            keeper_faults: 0,
        }
    }
}

// Makes the file if it isn't there, only for its owner: it holds the keys of packages. Its log gets the same mode.
// If it can't be made here, the attach can't make it either, and says so.
fn make_private(rt: &HostRuntime, path: &Text) {
    let _made = OpenOptions::new()
        .write(true)
        .create_new(true)
        .mode(0o600)
        .open(rt, path.as_str());
}

impl Store for SqlStore {
    ghost use Rattle.std.proofs.lemmas.Bool.{false≢true};

    type Kept = FileKeeper;

    ghost failed_attaches = { λ s. s.failed_attaches };

    ghost keeper_faults = { λ s. s.keeper_faults };

    fn attach(&mut self, path: Option<&Text>) -> Result<Attached<FileKeeper>, KeepFail> {
        if let Some(path) = path {
            make_private(&self.rt, path);
        }
        match attach_sql(&self.rt, self.alloc, path) {
            Ok(Attached { keeper, rows }) => Ok(Attached {
                keeper: FileKeeper { keeper },
                rows,
            }),
            Err(fail) => {
                if let KeepFail::Failed = fail {
                    self.failed_attaches = self.failed_attaches.saturating_add(1);
                }
                Err(fail)
            }
        }
    }

    fn detach(&mut self, keeper: FileKeeper) {
        let keeper = keeper.inside();
        self.keeper_faults = self.keeper_faults.saturating_add(keeper.faults());
        // If the close fails, the log beside the file has the rows that the file lacks.
        let _closed = keeper.close();
    }

    ghost honest_where_told = { λ store tells keeper. absurd (false≢true tells) };
}
