//! The items of an inbox.
ghost use Rattle.std.specs.Prelude.{◌≡◌, ◌++◌, take, IfOk, OnOk, OnErr, vec_len};
ghost use Rattle.std.specs.Option.{option_to_list};
ghost use Rattle.am_model.specs.Sending.{place_item, by_number};
ghost use Rattle.am_queue.specs.Inbox.{place_of};

use am_types::Item;
use std::alloc::{AllocError, Global};

/// How many items an inbox shows.
pub(crate) const SHOWN: usize = 64;

/// Adds an item after the others, if there is one.
pub(crate) fn push_item(items: &mut Vec<Item>, item: Option<Item>) -> Result<(), AllocError>
    ensures { OnOk result (items.new.items ≡ items.old.items ++ option_to_list item) }
{
    match item {
        None => Ok(()),
        Some(item) => {
            items.push(item)?;
            Ok(())
        }
    }
}

/// How many items come before those above a number.
fn place_of(items: &[Item], number: u64) -> usize
    ensures { result ≡ place_of number items.now }
{
    for (place, item) in items.iter().enumerate() {
        if number < item.delivery {
            return place;
        }
    }
    items.len()
}

/// Puts an item in its place among the first ones.
fn place_item(items: &mut Vec<Item>, item: Item) -> Result<(), AllocError>
    ensures { OnOk result (items.new.items ≡ take SHOWN (place_item item items.old.items)) }
{
    let place = place_of(items, item.delivery);
    items.insert(place, item)?;
    items.truncate(SHOWN);
    Ok(())
}

/// The first items by rising number.
pub(crate) fn first_by_number(alloc: Global, mut items: Vec<Item>) -> Result<Vec<Item>, AllocError>
    ensures { IfOk result (λ shown. shown.items ≡ take SHOWN (by_number items.items)) }
{
    let mut shown = Vec::new(alloc);
    while let Some(item) = items.pop() {
        place_item(&mut shown, item)?;
    }
    Ok(shown)
}
