//! Replies that no call of a session causes.
use am_trials_words::lent;
use am_types::{
    Account, Aim, Entry, List, Narrowing, Reply, Request, Rule, Shown, Standing, TaskView, Why,
};
use am_wire_replies::reply_text;
use am_wire_values::{reply_status, reply_value};
use std::alloc::{AllocError, Global};
use std::process::Abort;
use std::test::Fail;

/// A status and a reply in each line: a task without instances, entries of another desk, one of them not kept, a
/// history that is full, and a keeper that fails.
const ROWS: &str = r#"200 {"tasks":[{"instances":[],"task":5}]}
200 {"entries":[{"at":3,"desk":7,"kept":true,"now":18446744073709551615,"request":{"from":0},"route":"/v1/history","uid":0,"weight":65536},{"at":4,"desk":7,"kept":false,"now":18446744073709551615,"request":{"from":0},"route":"/v1/history","uid":10000,"weight":65536}],"from":3}
200 {"entries":[{"at":18446744073709551615,"desk":7,"kept":true,"now":18446744073709551615,"request":{"from":0},"route":"/v1/history","uid":0,"weight":65536},{"at":18446744073709551615,"desk":7,"kept":false,"now":18446744073709551615,"request":{"from":0},"route":"/v1/history","uid":10000,"weight":65536}],"from":18446744073709551615}
429 {"error":"history_full"}
503 {"error":"keeper_fault"}"#;

/// A status and a reply in each line: what is said only of components, here of a registered receiver.
const ACCOUNTS: &str = r#"200 {"accounts":[{"to":8,"verdict":"disabled"}]}
200 {"accounts":[{"reasons":[],"to":8,"verdict":"filters"}]}
200 {"accounts":[{"reasons":["action","scheme","host","path","type","category","action"],"to":8,"verdict":"filters"}]}
200 {"accounts":[{"by":"approved","to":8,"verdict":"narrowed"}]}
200 {"accounts":[{"by":"browser","to":8,"verdict":"narrowed"}]}
200 {"accounts":[{"by":"general","to":8,"verdict":"narrowed"}]}
200 {"accounts":[{"to":8,"verdict":"implicit_service"}]}
200 {"accounts":[{"to":8,"verdict":"outranked"}]}
200 {"accounts":[{"to":8,"verdict":"tied"}]}
200 {"accounts":[{"to":8,"verdict":"registered_only"}]}
200 {"accounts":[{"to":8,"verdict":"manifest_implicit"}]}
200 {"accounts":[{"to":8,"verdict":"not_exported"}]}"#;

fn none<T>(alloc: Global) -> List<T> {
    List::new(Vec::new(alloc))
}

fn tasks(alloc: Global) -> Result<Reply, AllocError> {
    let mut tasks = Vec::new(alloc);
    tasks.push(TaskView {
        task: 5,
        instances: none(alloc),
    })?;
    Ok(Reply::Tasks(List::new(tasks)))
}

fn entries(alloc: Global, from: u64) -> Result<Reply, AllocError> {
    let mut entries = Vec::new(alloc);
    for (uid, kept) in [(0, true), (10000, false)] {
        entries.push(Entry {
            desk: 7,
            uid,
            now: 18446744073709551615,
            weight: 65536,
            request: Request::History { from: 0 },
            kept,
        })?;
    }
    Ok(Reply::Entries {
        from,
        entries: List::new(entries),
    })
}

fn answered(n: u32, alloc: Global) -> Result<Reply, AllocError> {
    match n {
        0 => tasks(alloc),
        1 => entries(alloc, 3),
        2 => entries(alloc, 18446744073709551615),
        3 => Ok(Reply::Refused(Rule::HistoryFull)),
        _ => Ok(Reply::Refused(Rule::KeeperFault)),
    }
}

fn every_reason(alloc: Global) -> Result<Standing, AllocError> {
    Ok(Standing::Filters(List::new(vec![in alloc;
        Why::Action,
        Why::Scheme,
        Why::Host,
        Why::Path,
        Why::Type_,
        Why::Category,
        Why::Action,
    ]?)))
}

fn standing(n: u32, alloc: Global) -> Result<Standing, AllocError> {
    match n {
        0 => Ok(Standing::Disabled),
        1 => Ok(Standing::Filters(none(alloc))),
        2 => every_reason(alloc),
        3 => Ok(Standing::Narrowed(Narrowing::Approved)),
        4 => Ok(Standing::Narrowed(Narrowing::Browser)),
        5 => Ok(Standing::Narrowed(Narrowing::General)),
        6 => Ok(Standing::Refused(Rule::ImplicitService)),
        7 => Ok(Standing::Outranked),
        8 => Ok(Standing::Tied),
        9 => Ok(Standing::Refused(Rule::RegisteredOnly)),
        10 => Ok(Standing::Refused(Rule::ManifestImplicit)),
        _ => Ok(Standing::Refused(Rule::NotExported)),
    }
}

/// What is said of a registered receiver.
fn accounts(n: u32, alloc: Global) -> Result<List<Account>, AllocError> {
    let mut accounts = Vec::new(alloc);
    accounts.push(Account {
        to: Aim::Registered(8),
        standing: standing(n, alloc)?,
    })?;
    Ok(List::new(accounts))
}

/// The status and the text of a reply.
fn reply_line(alloc: Global, reply: Reply) -> Result<String, Fail> {
    let status = reply_status(&reply);
    let text = lent(reply, |reply| reply_text(alloc, reply))?;
    Ok(format!(in alloc; "{status} {text}")?)
}

/// The status and the text of the value of a reply.
fn value_line(alloc: Global, reply: Reply) -> Result<String, Fail> {
    let status = reply_status(&reply);
    let shown = Shown {
        at: 0,
        stored: false,
        reply,
    };
    let value = lent(shown, |shown| reply_value(alloc, shown))?;
    let text = value.to_string(alloc)?;
    Ok(format!(in alloc; "{status} {text}")?)
}

/// What is written for the numbers from 0 on is what the lines of the table have, of which there must be so many.
fn try_lines<F: Fn(u32) -> Result<String, Fail>>(
    rt: &impl Abort,
    table: &str,
    wanted: u32,
    written: F,
) -> Result<(), Fail>
    requires { F.IsAlwaysCallable written }
{
    let mut n: u32 = 0;
    for line in table.lines() {
        let found = written(n)?;
        assert_eq!(rt; found.as_str(), line, "{n}");
        n = n.wrapping_add(1);
    }
    assert_eq!(rt; n, wanted);
    Ok(())
}

#[test]
fn other_replies_are_written(rt: HostRuntime) -> Result<(), Fail> {
    try_lines(&rt, ROWS, 5, |n| {
        reply_line(rt.alloc(), answered(n, rt.alloc())?)
    })
}

#[test]
fn other_accounts_are_written(rt: HostRuntime) -> Result<(), Fail> {
    let alloc = rt.alloc();
    try_lines(&rt, ACCOUNTS, 12, |n| {
        reply_line(alloc, Reply::Accounts(accounts(n, alloc)?))
    })
}

/// What is printed of a reply is the text of its value.
#[test]
fn other_replies_have_values(rt: HostRuntime) -> Result<(), Fail> {
    let alloc = rt.alloc();
    try_lines(&rt, ROWS, 5, |n| value_line(alloc, answered(n, alloc)?))
}
