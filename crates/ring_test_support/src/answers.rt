//! What comes of an answer next to the one that a test wants.

use crate::steps::Outcome;

/// Agrees if both are equal.
fn unless<T: PartialEq + Drop>(found: T, wanted: T, otherwise: Outcome) -> Outcome {
    if found == wanted {
        Outcome::Agrees
    } else {
        otherwise
    }
}

pub(crate) fn unless_refused(is_done: bool) -> Outcome {
    unless(is_done, true, Outcome::Refused)
}

pub(crate) fn taken(found: Option<i64>, wanted: Option<i64>) -> Outcome {
    unless(found, wanted, Outcome::Differs(0, found))
}

pub(crate) fn counted(found: usize, wanted: usize) -> Outcome {
    unless(found, wanted, Outcome::Counts(found))
}

pub(crate) fn said(found: bool, wanted: bool) -> Outcome {
    unless(found, wanted, Outcome::Says(found))
}

pub(crate) fn answered(
    found: Result<Option<i64>, i64>,
    wanted: Result<Option<i64>, i64>,
) -> Outcome {
    unless(found, wanted, Outcome::Answers(found))
}

pub(crate) fn put(found: Result<(), i64>, wanted: Result<(), i64>) -> Outcome {
    match (found, wanted) {
        (Ok(()), Ok(())) => Outcome::Agrees,
        (Ok(()), Err(_)) => Outcome::Answers(Ok(None)),
        (Err(back), Err(item)) if back == item => Outcome::Agrees,
        (Err(back), _) => Outcome::Answers(Err(back)),
    }
}

pub(crate) fn searched(found: Result<usize, usize>, wanted: Result<usize, usize>) -> Outcome {
    unless(found, wanted, Outcome::Finds(found))
}

pub(crate) fn written(place: Option<&mut i64>, item: i64) -> Outcome {
    match place {
        Some(place) => {
            *place = item;
            Outcome::Agrees
        }
        None => Outcome::NoItem,
    }
}

/// Agrees if what is read is what is wanted, and what is lent is what was read.
pub(crate) fn found(read: Option<i64>, lent: Option<&mut i64>, wanted: Option<i64>) -> Outcome {
    let lent = lent.copied();
    if lent == read {
        taken(read, wanted)
    } else {
        Outcome::LendsAnother(read, lent)
    }
}
