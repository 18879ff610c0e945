//! Reads the fields of the JSON objects in a request's body. The result is the value of a field, or the first
//! fault found.
#![tactic(auto)]

mod body;
mod fault;
mod fields;
mod lists;
mod macros;
mod naming;
mod numbers;
mod print;
mod texts;

pub use body::json_value;
pub use fault::{Unread, WireFault};
pub use fields::{field, is_listed, only_fields, optional_truth, required, required_truth};
pub use lists::{list_in, optional_list, texts_in, word_in, words_in};
pub use naming::{too_long, wrong_kind};
pub use numbers::{
    natural_in, optional_natural, optional_whole, required_natural, required_up_to, required_whole,
    whole_in,
};
pub use texts::{optional_text, required_text, text_in, text_within};
