//! What a corrector is asked.

ghost use Rattle.std.specs.Prelude.{◌≡◌, ◌≤◌};
ghost use Rattle.bech32_correction.specs.Given.{search_end};

/// Where the errors may be that a [`Corrector`](crate::Corrector) is asked for.
#[derive(Clone, Copy)]
pub struct Question<'a> {
    /// The erasures: locations that are known to be wrong. One that is given twice counts once.
    pub erasures: &'a [usize],
    /// The highest location that is searched, or `None` for all below the window. The lower it is,
    /// the sooner the search ends.
    pub highest: Option<usize>,
}

/// Below this location a question is searched in a window.
pub(crate) fn end_of(highest: Option<usize>, window: usize) -> usize
    ensures value { result ≡ search_end highest window }
    ensures within { result ≤ window }
{
    match highest {
        Some(highest) if highest < window => highest + 1,
        _ => window,
    }
}
