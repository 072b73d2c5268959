//! What programs that reply to lines share: a run over all lines of an input, the words of a line,
//! and replies put together. What is said of a line is the program's own ([`Replies`]).
//!
//! Below it: `io_traits`.
//! Standard: none.
#![tactic(auto)]

mod error;
mod execute;
mod exit;
mod lines;
mod output;
mod replies;
mod words;

pub use error::{Reason, RunError};
pub use execute::{Execute, NotExecuted, text_of_line};
pub use exit::{exit_code, exit_code_on};
pub use lines::{run, run_on};
pub use output::{append, append_any, append_number, append_refusal, end_reply};
pub use replies::{LONGEST_LINE, REPLY_ROOM, Replies};
pub use words::{first_word, only_word};
