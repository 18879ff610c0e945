//! Whether an intent passes an intent filter, and whether it finds it.
ghost use Rattle.std.specs.Prelude.{◌≡◌};
ghost use Rattle.std.specs.List.{list_all};
ghost use Rattle.am_types.specs.declared.device.Rules.TheVariants.{Android12};
ghost use Rattle.am_model.specs.Cuts.{unfound_why, unheard_why};
ghost use Rattle.am_model.specs.Filters.{default_category, passes_action, passes_categories, phone_passes_action, profile_passes_action, why};
ghost use Rattle.am_model.specs.Texts.{lists};
ghost use Rattle.am_filter.specs.Answers.{answer_of};

use crate::cuts::{cut_of, cut_of_data};
use crate::data::{self, unless};
use am_types::{Filter, Intent, List, Rules, Text, Why};

/// The category that an implicit start needs.
const DEFAULT_CATEGORY: &str = "android.intent.category.DEFAULT";

/// Whether the intent passes the filter, which must list the default category if that is
/// needed. An error is the first of the tests on action, scheme, host, path, type and category
/// that fails. (AOSP, `IntentFilter.match`; hosts by ASCII case: own.) Takes no memory.
pub fn passes(rules: Rules, filter: &Filter, intent: &Intent, need_default: bool) -> Result<(), Why>
    ensures { result ≡ answer_of (why rules filter.now intent.now need_default) }
{
    if !passes_action(rules, &filter.actions, &intent.action) {
        return Err(Why::Action);
    }
    data::passes(rules, filter, &intent.uri, &intent.mime)?;
    if !passes_categories(&filter.categories, &intent.categories, need_default) {
        return Err(Why::Category);
    }
    Ok(())
}

/// Whether the intent finds an app's filter: it passes it, and a phone comes upon it. An error is the
/// first reason against it. (AOSP, `IntentResolver.queryIntent`.) Takes no memory.
pub fn finds(rules: Rules, filter: &Filter, intent: &Intent, need_default: bool) -> Result<(), Why>
    ensures { result ≡ answer_of (unfound_why rules filter.now intent.now need_default) }
{
    match rules {
        Rules::Profile => passes(Rules::Profile, filter, intent, need_default),
        Rules::Android12 => phone_finds(filter, intent, need_default),
    }
}

/// Whether the intent finds a registered receiver's filter, upon which a phone comes as if the intent
/// named no package. Takes no memory.
pub fn hears(rules: Rules, filter: &Filter, intent: &Intent) -> Result<(), Why>
    ensures { result ≡ answer_of (unheard_why rules filter.now intent.now) }
{
    match rules {
        Rules::Profile => passes(Rules::Profile, filter, intent, false),
        Rules::Android12 => phone_hears(filter, intent),
    }
}

/// A phone finds the filter if the intent passes it and comes upon it.
fn phone_finds(filter: &Filter, intent: &Intent, need_default: bool) -> Result<(), Why>
    ensures { result ≡ answer_of (unfound_why Android12 filter.now intent.now need_default) }
{
    passes(Rules::Android12, filter, intent, need_default)?;
    unless(cut_of(filter, intent).is_some(), Why::Action)
}

/// The same for the filter of a registered receiver.
fn phone_hears(filter: &Filter, intent: &Intent) -> Result<(), Why>
    ensures { result ≡ answer_of (unheard_why Android12 filter.now intent.now) }
{
    passes(Rules::Android12, filter, intent, false)?;
    unless(cut_of_data(filter, intent).is_some(), Why::Action)
}

/// The filter passes the test of its actions.
fn passes_action(rules: Rules, listed: &List<Text>, action: &Option<Text>) -> bool
    ensures { result ≡ passes_action rules listed.now action.now }
{
    match rules {
        Rules::Profile => profile_passes_action(listed, action),
        Rules::Android12 => phone_passes_action(listed, action),
    }
}

/// The filter lists the intent's action, if the intent has one.
fn phone_passes_action(listed: &List<Text>, action: &Option<Text>) -> bool
    ensures { result ≡ phone_passes_action listed.now action.now }
{
    match action {
        None => true,
        Some(action) => lists(listed, action),
    }
}

/// The filter lists some action, and lists the intent's action if the intent has one.
fn profile_passes_action(listed: &List<Text>, action: &Option<Text>) -> bool
    ensures { result ≡ profile_passes_action listed.now action.now }
{
    match action {
        None => !listed.as_slice().is_empty(),
        Some(action) => lists(listed, action),
    }
}

/// The filter lists each category of the intent, and the default one if that is needed.
fn passes_categories(listed: &List<Text>, categories: &List<Text>, need_default: bool) -> bool
    ensures { result ≡ passes_categories listed.now categories.now need_default }
{
    lists_all(listed, categories) && (!need_default || lists_default(listed))
}

/// Whether each text of the second list is in the first. Takes no memory.
pub fn lists_all(texts: &List<Text>, wanted: &List<Text>) -> bool
    ensures { result ≡ list_all (λ text. lists texts.now text) wanted.now }
{
    wanted.as_slice().iter().all(|text| lists(texts, text))
}

/// Whether the text is listed. Takes no memory.
pub fn lists(texts: &List<Text>, text: &Text) -> bool
    ensures { result ≡ lists texts.now text.now }
{
    texts.as_slice().contains(text)
}

/// Whether the default category is listed. Takes no memory.
pub fn lists_default(texts: &List<Text>) -> bool
    ensures { result ≡ lists texts.now default_category }
{
    texts
        .as_slice()
        .iter()
        .any(|listed| listed.as_str() == DEFAULT_CATEGORY)
}
