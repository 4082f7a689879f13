//! What a run is to print.

/// How a text is compared with what a run printed.
#[derive(Clone, Copy, Debug, PartialEq, Eq)]
pub enum Match {
    /// It is the whole text, or one of several that may be.
    Whole,
    /// The text begins with it.
    Start,
    /// The text ends with it.
    End,
}

/// A text that is wanted.
#[derive(Drop)]
pub struct Wanted {
    pub kind: Match,
    pub text: Vec<u8>,
}

fn suits(wanted: &Wanted, text: &[u8]) -> bool {
    match wanted.kind {
        Match::Whole => wanted.text.as_slice() == text,
        Match::Start => text.starts_with(wanted.text.as_slice()),
        Match::End => text.ends_with(wanted.text.as_slice()),
    }
}

/// Whether the text is one of those that it may be as a whole, and has the starts and ends that are wanted.
pub fn all_suit(wanted: &[Wanted], text: &[u8]) -> bool {
    let mut whole = true;
    for one in wanted {
        if one.kind == Match::Whole {
            whole = false;
        }
    }
    for one in wanted {
        let good = suits(one, text);
        if one.kind == Match::Whole {
            whole = whole || good;
        } else if !good {
            return false;
        }
    }
    whole
}
