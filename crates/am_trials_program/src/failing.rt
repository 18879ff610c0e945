//! Sessions whose keeper fails at one of its calls, and what is found again of them.
ghost use Rattle.std.specs.Prelude.{◌≡◌, ◌≢◌, ◌≤◌, Err, IfOk};
ghost use Rattle.am_outside.specs.Counts.{HasRisen};
ghost use Rattle.am_keeper.specs.Rows.{IsInOrder};

use am_keeper::{
    Attached, GrantRow, KeepFail, Keeper, LinkRow, MemoryKeeper, MemoryStore, PackageRow, Rows,
    RowsBuilder, Store, StoredRows,
};
use am_trials_runs::{Asked, QUIET, Runtime, asked_over, run_over};
use am_trials_spelling::{Exchanged, session_of};
use am_trials_words::try_sections;
use am_types::{List, Text};
use std::alloc::Global;
use std::process::Abort;
use std::test::Fail;

/// A keeper in memory that tells nothing of its rows.
#[derive(Drop)]
struct SilentKeeper {
    keeper: MemoryKeeper,
    place: Option<Text>,
    faults: u64,
}

impl SilentKeeper {
    /// Counts a fault, if there was one.
    fn counted(&mut self, done: Result<(), KeepFail>) -> Result<(), KeepFail>
        ensures same { result ≡ done }
        ensures place { self.new.place ≡ self.old.place }
        ensures keeper { self.new.keeper ≡ self.old.keeper }
        ensures never_falls { self.old.faults ≤ self.new.faults }
        ensures failed { done ≡ Err KeepFail.Failed → HasRisen self.old.faults self.new.faults }
        ensures only_failed { done ≢ Err KeepFail.Failed → self.new.faults ≡ self.old.faults }
    {
        if let Err(KeepFail::Failed) = done {
            self.faults = self.faults.saturating_add(1);
        }
        done
    }
}

impl Keeper for SilentKeeper {
    ghost use Rattle.std.specs.Prelude.{None};

    ghost rows = { λ k. None };

    ghost place = { λ k. k.place };

    ghost is_honest = { λ k. ⊥ };

    ghost stays_honest = { λ k. ⊥ };

    ghost faults = { λ k. k.faults };

    ghost puts = { λ k. k.keeper.calls };

    ghost honest_by_nature = { λ k h. h };

    fn put_package(&mut self, row: &PackageRow) -> Result<(), KeepFail> {
        let done = self.keeper.put_package(row);
        self.counted(done)
    }

    fn put_grant(&mut self, row: &GrantRow) -> Result<(), KeepFail> {
        let done = self.keeper.put_grant(row);
        self.counted(done)
    }

    fn put_link(&mut self, row: &LinkRow) -> Result<(), KeepFail> {
        let done = self.keeper.put_link(row);
        self.counted(done)
    }
}

/// A store whose keepers fail at the call with this number. It holds the keeper that came back last.
#[derive(Drop)]
struct FailingStore {
    alloc: Global,
    call: u32,
    faults: u64,
    left: Option<MemoryKeeper>,
}

impl Store for FailingStore {
    ghost use Rattle.std.proofs.lemmas.Bool.{false≢true};

    type Kept = SilentKeeper;

    ghost failed_attaches = { λ s. 0 };

    ghost keeper_faults = { λ s. s.faults };

    fn attach(&mut self, path: Option<&Text>) -> Result<Attached<SilentKeeper>, KeepFail> {
        let mut failing = Vec::new(self.alloc);
        failing.push(self.call)?;
        let place = match path {
            Some(path) => Some(path.clone()?),
            None => None,
        };
        let none = RowsBuilder::new(self.alloc).finish();
        let keeper = SilentKeeper {
            keeper: MemoryKeeper::new(self.alloc, none, List::new(failing)),
            place,
            faults: 0,
        };
        let rows = RowsBuilder::new(self.alloc).finish();
        Ok(Attached { keeper, rows })
    }

    fn detach(&mut self, keeper: SilentKeeper) {
        let SilentKeeper {
            keeper,
            place: _,
            faults,
        } = keeper;
        self.faults = self.faults.saturating_add(faults);
        self.left = Some(keeper);
    }

    ghost honest_where_told = { λ store tells keeper. absurd (false≢true tells) };
}

/// The number of the failing call, and the installed packages that are found again; then the calls, as everywhere.
const SESSIONS: &str = r#"1 -
POST /v1/install | sys | {"key":"ka","manifest":"package = \"com.a\""} -> 503 Service Unavailable | 0 1 | {"error":"keeper_fault"}
POST /v1/grant | sys | {"held":true,"package":"com.a","permission":"p.X"} -> 404 Not Found | 1 1 | {"error":"no_package"}
POST /v1/link | sys | {"approved":true,"host":"h.org","package":"com.a"} -> 404 Not Found | 2 1 | {"error":"no_package"}
POST /v1/uninstall | sys | {"package":"com.a"} -> 404 Not Found | 3 1 | {"error":"no_package"}
GET /v1/inbox | ka |  -> 401 Unauthorized | 4 0 | {"error":"unknown_key"}
= 2 -
POST /v1/install | sys | {"key":"ka","manifest":"package = \"com.a\""} -> 200 OK | 0 1 | {"uid":10000}
POST /v1/grant | sys | {"held":true,"package":"com.a","permission":"p.X"} -> 503 Service Unavailable | 1 1 | {"error":"keeper_fault"}
POST /v1/link | sys | {"approved":true,"host":"h.org","package":"com.a"} -> 200 OK | 2 1 | {}
POST /v1/uninstall | sys | {"package":"com.a"} -> 200 OK | 3 1 | {}
GET /v1/inbox | ka |  -> 401 Unauthorized | 4 0 | {"error":"unknown_key"}
= 3 -
POST /v1/install | sys | {"key":"ka","manifest":"package = \"com.a\""} -> 200 OK | 0 1 | {"uid":10000}
POST /v1/grant | sys | {"held":true,"package":"com.a","permission":"p.X"} -> 200 OK | 1 1 | {}
POST /v1/link | sys | {"approved":true,"host":"h.org","package":"com.a"} -> 503 Service Unavailable | 2 1 | {"error":"keeper_fault"}
POST /v1/uninstall | sys | {"package":"com.a"} -> 200 OK | 3 1 | {}
= 4 com.a
POST /v1/install | sys | {"key":"ka","manifest":"package = \"com.a\""} -> 200 OK | 0 1 | {"uid":10000}
POST /v1/grant | sys | {"held":true,"package":"com.a","permission":"p.X"} -> 200 OK | 1 1 | {}
POST /v1/link | sys | {"approved":true,"host":"h.org","package":"com.a"} -> 200 OK | 2 1 | {}
POST /v1/uninstall | sys | {"package":"com.a"} -> 503 Service Unavailable | 3 1 | {"error":"keeper_fault"}
GET /v1/inbox | ka |  -> 200 OK | 4 0 | {"items":[]}
= 5 -
POST /v1/install | sys | {"key":"ka","manifest":"package = \"com.a\""} -> 200 OK | 0 1 | {"uid":10000}
POST /v1/grant | sys | {"held":true,"package":"com.a","permission":"p.X"} -> 200 OK | 1 1 | {}
POST /v1/link | sys | {"approved":true,"host":"h.org","package":"com.a"} -> 200 OK | 2 1 | {}
POST /v1/uninstall | sys | {"package":"com.a"} -> 200 OK | 3 1 | {}
= 2 com.a com.c
POST /v1/install | sys | {"key":"ka","manifest":"package = \"com.a\""} -> 200 OK | 0 1 | {"uid":10000}
POST /v1/install | sys | {"key":"kb","manifest":"package = \"com.b\""} -> 503 Service Unavailable | 1 1 | {"error":"keeper_fault"}
POST /v1/install | sys | {"key":"kc","manifest":"package = \"com.c\""} -> 200 OK | 2 1 | {"uid":10001}
POST /v1/install | sys | {"key":"kz","manifest":"package = \"com.a\""} -> 409 Conflict | 3 1 | {"error":"installed"}
GET /v1/inbox | kb |  -> 401 Unauthorized | 4 0 | {"error":"unknown_key"}
GET /v1/status | sys |  -> 200 OK | 4 0 | {"history":4,"moment":3,"packages":2}
POST /v1/history | sys | {"from":0} -> 200 OK | 4 0 | {"entries":[{"at":0,"desk":0,"kept":true,"now":0,"request":{"key":"ka","manifest":"package = \"com.a\""},"route":"/v1/install","uid":1000,"weight":45},{"at":1,"desk":0,"kept":false,"now":1,"request":{"key":"kb","manifest":"package = \"com.b\""},"route":"/v1/install","uid":1000,"weight":45},{"at":2,"desk":0,"kept":true,"now":2,"request":{"key":"kc","manifest":"package = \"com.c\""},"route":"/v1/install","uid":1000,"weight":45},{"at":3,"desk":0,"kept":true,"now":3,"request":{"key":"kz","manifest":"package = \"com.a\""},"route":"/v1/install","uid":1000,"weight":45}],"from":0}"#;

const BARE: &str = "system_key = 'sys'";

/// The names of the packages that are there, one after the other.
fn names(alloc: Global, rows: &Rows) -> Result<String, Fail> {
    let mut names = String::new(alloc);
    for row in rows.packages.as_slice() {
        if !row.gone {
            if !names.is_empty() {
                names.push(' ')?;
            }
            names.push_str(row.name.as_str())?;
        }
    }
    Ok(names)
}

const WORDS: &str = "session --device d --store p";

/// A store with these rows at this place.
fn store_of(alloc: Global, path: Text, rows: Rows) -> Result<MemoryStore, Fail>
    requires { IsInOrder rows }
{
    let mut places = Vec::new(alloc);
    places.push(StoredRows { path, rows })?;
    Ok(MemoryStore::new(alloc, List::new(places), List::new(Vec::new(alloc))))
}

/// A session over these rows, at this place, has so many packages.
fn try_again(
    rt: &(impl Runtime + Abort),
    alloc: Global,
    path: Text,
    rows: Rows,
    packages: usize,
) -> Result<(), Fail>
    requires { IsInOrder rows }
{
    let mut store = store_of(alloc, path, rows)?;
    let asked = "GET /v1/status | sys | ";
    let left = asked_over(rt, alloc, WORDS, BARE, asked, &mut store);
    drop(store);
    let left = left?;
    let wanted = format!(in alloc; "\"packages\":{packages}}}")?;
    assert!(rt; left.text()?.ends_with(wanted.as_str()), "{wanted}");
    Ok(())
}

/// The rows have these packages.
fn try_names(alloc: Global, rows: &Rows, found: &str) -> Result<(), Fail> {
    let names = names(alloc, rows)?;
    (names.as_str() == found)
        .then_some(())
        .ok_or("other packages")?;
    Ok(())
}

/// The rows have these packages, and are found again.
fn try_kept(
    rt: &(impl Runtime + Abort),
    alloc: Global,
    path: Text,
    kept: Rows,
    found: &str,
) -> Result<(), Fail>
    requires { IsInOrder kept }
{
    let packages = found.split(' ').filter(|name| !name.is_empty()).count();
    match try_names(alloc, &kept, found) {
        Ok(()) => try_again(rt, alloc, path, kept, packages),
        Err(fail) => {
            drop(path);
            drop(kept);
            Err(fail)
        }
    }
}

/// Runs the session over the store, and looks at its answers.
fn try_answers(
    rt: &(impl Runtime + Abort),
    alloc: Global,
    rows: &str,
    store: &mut FailingStore,
) -> Result<(), Fail> {
    let Exchanged { input, wanted, .. } = session_of(alloc, rows)?;
    let asked = Asked::new(WORDS, BARE, input.as_bytes());
    let left = run_over(rt, alloc, &asked, &QUIET, store)?;
    assert_eq!(rt; left.output.taken(), wanted.as_bytes(), "{rows}");
    assert_eq!(rt; left.status, 0, "{rows}");
    assert_eq!(rt; store.faults, if store.call < 5 { 1 } else { 0 }, "{rows}");
    Ok(())
}

/// The rows of the keeper that came back.
fn rows_left(store: FailingStore) -> Result<Rows, Fail>
    ensures { IfOk result IsInOrder }
{
    let keeper = store.left.ok_or("a keeper")?;
    let rows = keeper.rows();
    drop(keeper);
    Ok(rows?)
}

/// Runs the session over a keeper that fails at the call of its first line, and looks at what is found again.
fn try_session(rt: &(impl Runtime + Abort), alloc: Global, session: &str) -> Result<(), Fail> {
    let (head, rows) = session.split_once('\n').ok_or("calls")?;
    let (call, found) = head.split_once(' ').ok_or("packages")?;
    let call = call.parse::<u32>().ok().ok_or("a call")?;
    let path = Text::of(alloc, "p")?;
    let mut store = FailingStore {
        alloc,
        call,
        faults: 0,
        left: None,
    };
    let found = if found == "-" { "" } else { found };
    match try_answers(rt, alloc, rows, &mut store) {
        Ok(()) => try_kept(rt, alloc, path, rows_left(store)?, found),
        Err(fail) => {
            drop(path);
            drop(store);
            Err(fail)
        }
    }
}

#[test]
fn goes_on_when_the_keeper_fails(rt: HostRuntime) -> Result<(), Fail> {
    try_sections(
        SESSIONS,
        "\n= ",
        6,
        |session| try_session(&rt, rt.alloc(), session),
    )
}
