//! What is proved of shares and strings, recovery and secrecy among it: calls that do nothing.

pub use crate::detection::changed_strings_are_no_strings;
pub use crate::secrecy::fewer_shares_of_a_split_say_nothing;
pub use crate::sets::{sets_give_one_string, strings_have_one_reading};
pub use codex32_steady::shares::laws::{
    derived_strings_are_strings, derived_texts_are_accepted, derived_texts_give_back_the_shares,
    each_secret_has_one_dealing, each_secret_has_one_dealing_of_strings, fewer_shares_say_nothing,
    fewer_strings_say_nothing, further_texts_agree_where_they_are_derived, one_text_is_derived,
    one_value_through_points, weights_sum_to_one,
};
