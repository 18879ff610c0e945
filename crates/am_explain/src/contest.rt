//! What decides, across the whole device, on a component that an implicit start finds.
ghost use Rattle.std.specs.Prelude.{◌≡◌, ◌+◌, ◌*◌, ◌≤◌, IsSome, IfOk, false, option_copied};
ghost use Rattle.am_types.specs.declared.device.Rules.TheVariants.{Android12, Profile};
ghost use Rattle.am_types.specs.declared.manifest.Kind.TheVariants.{Activity, Service};
ghost use Rattle.am_model.specs.Candidates.{hits};
ghost use Rattle.am_model.specs.Targets.{host_to_view};
ghost use Rattle.am_index.specs.Groups.{group_size};
ghost use Rattle.am_model.specs.Accounts.{first_of, is_choice};
ghost use Rattle.am_explain.specs.Asking.{question_of};
ghost use Rattle.am_explain.specs.Contests.{IsContest, IsLed, IsPhoneLed, is_approved_hit, leader, leaders_of, priority_of_hit};

use crate::asking::Question;
use am_installed::Installed;
use am_links::{Leading, Narrowed};
use am_resolve::{Board, approves, host_to_view, is_tied, phone_choice};
use am_types::{Component, Hit, Intent, Kind, Link, List, NoMemory, Rules, Steps, Target};
use std::alloc::Global;
use std::sync::ledger::Ledger;

/// What decides on a component of a kind that the intent finds, apart from the component itself.
#[derive(Drop)]
pub(crate) enum Contest {
    /// A start of an activity under the profile, for which others may take precedence.
    Start(Leaders),
    /// The same on a phone.
    PhoneStart(PhoneLeaders),
    /// A start of a service: the first component that is found.
    Service(Option<Component>),
    /// A broadcast, in which no receiver gets in another's way.
    Broadcast,
}

/// What decides on an activity under the profile.
#[derive(Clone, Copy)]
pub(crate) struct Leaders {
    /// Some activity that is found belongs to a package that is approved for the host of the web intent.
    pub(crate) approved: bool,
    /// The greatest priority among those that the narrowing leaves.
    pub(crate) greatest: Option<i32>,
    /// Several have this priority.
    pub(crate) tied: bool,
}

/// What decides on an activity on a phone.
#[derive(Drop)]
pub(crate) struct PhoneLeaders {
    /// What decides which activities the narrowing leaves, if they are narrowed.
    pub(crate) leading: Option<Leading>,
    /// Several of those that are left share the greatest priority, so that only what the caller may start counts.
    pub(crate) contested: bool,
    /// The greatest priority among those that count.
    pub(crate) greatest: Option<i32>,
    /// Several of these have this priority.
    pub(crate) tied: bool,
}

/// The grounds on which components are judged: what is installed, what is asked, and what decides apart from the
/// component itself.
#[derive(Clone, Copy)]
pub(crate) struct Grounds<'a> {
    pub(crate) alloc: Global,
    pub(crate) installed: &'a Installed,
    pub(crate) question: Question<'a>,
    pub(crate) contest: &'a Contest,
    /// Only what has this uid is told of, or all without one.
    pub(crate) shown: Option<u32>,
}

/// The first hit that a start may reach, if there is one.
fn leader(reached: &Target) -> Option<&Hit>
    ensures { option_copied result ≡ leader reached.now }
{
    match reached {
        Target::Nothing => None,
        Target::One(hit) => Some(hit),
        Target::Choose(several) => several.as_slice().first(),
    }
}

/// The user must choose.
fn is_choice(reached: &Target) -> bool
    ensures { result ≡ is_choice reached.now }
{
    match reached {
        Target::Nothing | Target::One(_) => false,
        Target::Choose(_) => true,
    }
}

/// There is a hit, and its package is approved for the host of a web intent.
fn is_approved_hit(links: &List<Link>, intent: &Intent, hit: Option<&Hit>) -> bool
    ensures { result ≡ is_approved_hit links.now (host_to_view intent.now) (option_copied hit.entry) }
{
    match (host_to_view(intent), hit) {
        (Some(host), Some(hit)) => approves(links, host, hit.uid),
        _ => false,
    }
}

/// The priority of a hit, if there is one.
fn priority_of_hit(hit: Option<&Hit>) -> Option<i32>
    ensures { result ≡ priority_of_hit (option_copied hit.entry) }
{
    match hit {
        Some(hit) => Some(hit.priority),
        None => None,
    }
}

/// What the target of a start shows.
fn leaders_of(links: &List<Link>, intent: &Intent, reached: &Target) -> Leaders
    ensures { result ≡ leaders_of links.now (host_to_view intent.now) reached.now }
{
    let first = leader(reached);
    Leaders {
        approved: is_approved_hit(links, intent, first),
        greatest: priority_of_hit(first),
        tied: is_choice(reached),
    }
}

/// What decides on activities under the profile. Each full test of a filter is a step.
fn find_leaders<L: Ledger>(
    alloc: Global,
    board: &Board,
    caller: u32,
    intent: &Intent,
    steps: &mut Steps<L>,
) -> Result<Leaders, NoMemory>
    requires { board.now.rules ≡ Profile }
    ensures led { IfOk result (λ leaders. IsLed board.now intent.now leaders) }
    ensures tests { steps.new ≤ steps.old + 2 * group_size board.now.packages Activity intent.now }
    ensures explicit { IsSome intent.now.component → steps.new ≡ steps.old }
{
    let reached = board.target(alloc, caller, intent, steps)?;
    let leaders = leaders_of(board.links(), intent, &reached);
    drop(reached);
    Ok(leaders)
}

/// What the target of a phone's start shows.
fn phone_leaders_of(leading: Option<Leading>, contested: bool, reached: &Target) -> PhoneLeaders
    ensures { result ≡ record {
      leading = leading;
      contested = contested;
      greatest = priority_of_hit (leader reached.now);
      tied = is_choice reached.now;
    } }
{
    PhoneLeaders {
        leading,
        contested,
        greatest: priority_of_hit(leader(reached)),
        tied: is_choice(reached),
    }
}

/// What decides on activities on a phone. Each full test of a filter is a step.
fn find_phone_leaders<L: Ledger>(
    alloc: Global,
    board: &Board,
    caller: u32,
    intent: &Intent,
    steps: &mut Steps<L>,
) -> Result<PhoneLeaders, NoMemory>
    requires { board.now.rules ≡ Android12 }
    ensures led { IfOk result (λ leaders. IsPhoneLed board.now caller intent.now leaders) }
    ensures tests { steps.new ≤ steps.old + group_size board.now.packages Activity intent.now }
    ensures explicit { IsSome intent.now.component → steps.new ≡ steps.old }
{
    let Narrowed { leading, left } = board.narrowed(alloc, intent, true, steps)?;
    let contested = is_tied(&left);
    let reached = phone_choice(board.installed(), caller, left);
    let leaders = phone_leaders_of(leading, contested, &reached);
    drop(reached);
    Ok(leaders)
}

/// What decides on activities. Each full test of a filter is a step.
fn find_start<L: Ledger>(
    alloc: Global,
    board: &Board,
    question: &Question,
    steps: &mut Steps<L>,
) -> Result<Contest, NoMemory>
    requires { question.now.kind ≡ Activity }
    ensures contest { IfOk result (λ contest. IsContest board.now (question_of question.now) contest) }
    ensures tests { steps.new
        ≤ steps.old + 2 * group_size board.now.packages Activity question.now.intent.now }
    ensures explicit { IsSome question.now.intent.now.component → steps.new ≡ steps.old }
{
    let (caller, intent) = (question.caller, question.intent);
    match board.rules() {
        Rules::Profile => Ok(Contest::Start(find_leaders(alloc, board, caller, intent, steps)?)),
        Rules::Android12 => {
            let leaders = find_phone_leaders(alloc, board, caller, intent, steps)?;
            Ok(Contest::PhoneStart(leaders))
        }
    }
}

/// The first of the services that are found. Each full test of a filter is a step.
fn first_service<L: Ledger>(
    alloc: Global,
    board: &Board,
    intent: &Intent,
    steps: &mut Steps<L>,
) -> Result<Option<Component>, NoMemory>
    ensures first { IfOk result (λ first. first ≡ first_of (hits board.now.rules board.now.packages Service intent.now false)) }
    ensures tests { steps.new ≤ steps.old + group_size board.now.packages Service intent.now }
    ensures explicit { IsSome intent.now.component → steps.new ≡ steps.old }
{
    let found = board.hits(alloc, Kind::Service, intent, false, steps)?;
    let first = first_of(&found);
    drop(found);
    first
}

/// The first of the components that were found.
fn first_of(found: &List<Hit>) -> Result<Option<Component>, NoMemory>
    ensures { IfOk result (λ first. first ≡ first_of found.now) }
{
    match found.as_slice().first() {
        None => Ok(None),
        Some(hit) => Ok(Some(hit.component.clone()?)),
    }
}

/// What decides on components of the kind in question. Each full test of a filter is a step.
pub(crate) fn find_contest<L: Ledger>(
    alloc: Global,
    board: &Board,
    question: &Question,
    steps: &mut Steps<L>,
) -> Result<Contest, NoMemory>
    ensures contest { IfOk result (λ contest. IsContest board.now (question_of question.now) contest) }
    ensures tests { steps.new
        ≤ steps.old + 2 * group_size board.now.packages question.now.kind question.now.intent.now }
    ensures explicit { IsSome question.now.intent.now.component → steps.new ≡ steps.old }
{
    match question.kind {
        Kind::Activity => find_start(alloc, board, question, steps),
        Kind::Service => Ok(Contest::Service(first_service(alloc, board, question.intent, steps)?)),
        Kind::Receiver => Ok(Contest::Broadcast),
    }
}
