//! What a program replies to a line.

ghost use Rattle.std.specs.Prelude.{◌≡◌, ℕ, ◌+◌, ◌≤◌, ◌<◌, List, [], ◌∷◌, ◌++◌, length};
ghost use Rattle.std.specs.Prelude.{vec_len, vec_capacity};
ghost use Rattle.line_program.specs.Limit.{longest_line};

/// No program answers a line of more bytes than this.
pub const LONGEST_LINE: usize = 16384;

/// What a reply adds to its output is no longer than this.
pub const REPLY_ROOM: usize = 2048;

/// Gives the reply to each line.
pub trait Replies {
    ghost LINE_LIMIT: { ℕ };

    // A run has room for a line of so many bytes.
    ghost limited: { LINE_LIMIT ≤ longest_line };

    // What may be said of a line, without the newline that ends it: the line, and what is said.
    ghost is_reply: { List ℕ → List ℕ → Type 0 };

    /// A line may have this many bytes. A longer one is refused, whatever it holds.
    const LINE_LIMIT: usize;

    /// Adds the reply to a line, and a newline. The line has no newline of its own.
    fn reply(&self, line: &[u8], out: &mut Vec<u8>)
        requires { vec_len out.old + 2048 ≤ vec_capacity out.old }
        ensures reply { (said : List ℕ) × is_reply line.now said
            × (out.new.items ≡ out.old.items ++ (said ++ 10 ∷ [])) }
        ensures capacity { vec_capacity out.old ≤ vec_capacity out.new };

    // What may be said of one line that is too long may be said of each.
    ghost too_long: { (one other said : List ℕ) → LINE_LIMIT < length one
        → LINE_LIMIT < length other → is_reply one said → is_reply other said };
}
