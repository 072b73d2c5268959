//! Two, three or four words.

ghost use Rattle.line_program.specs.Words.{Reads, words};
ghost use Rattle.b32_replies.specs.Counted.{four_of, three_of, two_of};

use line_program::{first_word, only_word};

/// The two words of a text, where it has two, and none is empty.
pub fn two_words(text: &str) -> Option<(&str, &str)>
    ensures { Reads (λ r. (r.0.now, r.1.now)) (two_of (words text.now)) result }
{
    let (first, others) = first_word(text)?;
    let second = only_word(others)?;
    Some((first, second))
}

/// The three words of a text, where it has three, and none is empty.
pub fn three_words(text: &str) -> Option<(&str, (&str, &str))>
    ensures { Reads (λ r. (r.0.now, (r.1.0.now, r.1.1.now))) (three_of (words text.now)) result }
{
    let (first, others) = first_word(text)?;
    let others = two_words(others)?;
    Some((first, others))
}

/// The four words of a text, where it has four, and none is empty.
pub fn four_words(text: &str) -> Option<(&str, (&str, (&str, &str)))>
    ensures { Reads (λ r. (r.0.now, (r.1.0.now, (r.1.1.0.now, r.1.1.1.now))))
        (four_of (words text.now)) result }
{
    let (first, others) = first_word(text)?;
    let others = three_words(others)?;
    Some((first, others))
}
