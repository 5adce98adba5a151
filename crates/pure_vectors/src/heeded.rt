//! Whether a policy was heeded, seen from its words and from the lemmas alone that are cancelled.
use crate::fates::{Places, is_fault, name_of};
use crate::marks::{is_blank, is_colon, is_comma, is_dot, is_line_feed};
use pure_rows::number_of;

/// What stands for the whole session.
const SESSION: &[u8] = b"session";

/// The value of `--cancel` among the words, or nothing.
fn cancels_in(words: &[u8]) -> &[u8] {
    let mut is_next = false;
    for word in words.split(is_blank) {
        if is_next {
            return word;
        }
        is_next = word == b"--cancel".as_slice();
    }
    b""
}

fn is_fail_fast(words: &[u8]) -> bool {
    let mut words = words.split(is_blank);
    words.any(|word| word == b"--fail-fast".as_slice())
}

/// A group, and after how many deliveries it is cancelled.
#[derive(Clone, Copy)]
struct Cancellation<'w> {
    group: &'w [u8],
    after: usize,
}

/// The number behind a colon.
fn count_behind(written: &[u8]) -> Option<usize> {
    let count = number_of(written.strip_prefix(b":")?)?;
    Some(count as usize)
}

/// Whether each cancellation among these has a group and a number.
fn are_cancellations(written: &[u8]) -> bool {
    let mut cancels = written.split(is_comma);
    cancels.all(|cancel| {
        let end = cancel.iter().position(is_colon);
        let (group, after) = cancel.split_at(end.unwrap_or(cancel.len()));
        !group.is_empty() && count_behind(after).is_some()
    })
}

/// Whether the words are those of a policy: `--fail-fast`, and `--cancel` with its value.
pub(crate) fn is_policy(words: &[u8]) -> bool {
    let mut is_next = false;
    for word in words.split(is_blank) {
        if is_next && !are_cancellations(word) {
            return false;
        }
        if !is_next && !is_option(word) {
            return false;
        }
        is_next = !is_next && word == b"--cancel".as_slice();
    }
    !is_next
}

/// The words of a policy.
const OPTIONS: [&[u8]; 3] = [b"", b"--fail-fast", b"--cancel"];

/// Whether the word is nothing, or begins a part of a policy.
fn is_option(word: &[u8]) -> bool {
    for option in &OPTIONS {
        if *option == word {
            return true;
        }
    }
    false
}

/// The cancellation that is written so.
fn read_cancellation(written: &[u8]) -> Cancellation<'_> {
    let end = written.iter().position(is_colon);
    let (group, after) = written.split_at(end.unwrap_or(written.len()));
    Cancellation {
        group,
        after: count_behind(after).unwrap_or(0),
    }
}

/// Whether the lemma with the name is in the group; no lemma has an empty name.
fn is_in(group: &[u8], name: &[u8]) -> bool {
    if name.is_empty() {
        return false;
    }
    let behind = name.strip_prefix(group).unwrap_or(b"");
    group == SESSION || behind.starts_with(b".")
}

/// How many lemmas of the group are kept.
fn kept_of(lines: &[u8], cancelled: Places, group: &[u8]) -> usize {
    let mut kept = 0_usize;
    for (place, line) in lines.split(is_line_feed).enumerate() {
        if is_in(group, name_of(line)) && !cancelled.has(place) {
            kept = kept.saturating_add(1);
        }
    }
    kept
}

/// How many kept lemmas have a fault.
fn faults_of(lines: &[u8], cancelled: Places) -> usize {
    let mut faults = 0_usize;
    for (place, line) in lines.split(is_line_feed).enumerate() {
        if is_fault(line) && !cancelled.has(place) {
            faults = faults.saturating_add(1);
        }
    }
    faults
}

/// Whether the words cancel the lemma with the name once so many are kept, so many of them with faults.
fn is_due(words: &[u8], kept: usize, faults: usize, name: &[u8]) -> bool {
    if is_fail_fast(words) && faults > 0 {
        return true;
    }
    let mut cancels = cancels_in(words).split(is_comma);
    cancels.any(|written| {
        let Cancellation { group, after } = read_cancellation(written);
        is_in(group, name) && after <= kept
    })
}

/// Whether the words gave leave for each lemma that is cancelled.
fn is_licensed(words: &[u8], lines: &[u8], cancelled: Places) -> bool {
    let kept = kept_of(lines, cancelled, SESSION);
    let faults = faults_of(lines, cancelled);
    for (place, line) in lines.split(is_line_feed).enumerate() {
        if cancelled.has(place) && !is_due(words, kept, faults, name_of(line)) {
            return false;
        }
    }
    true
}

/// Whether no more lemmas are kept than the words allow, and of those with a fault.
fn is_obeyed(words: &[u8], lines: &[u8], cancelled: Places) -> bool {
    if is_fail_fast(words) && faults_of(lines, cancelled) > 1 {
        return false;
    }
    let mut cancels = cancels_in(words).split(is_comma);
    cancels.all(|written| {
        let Cancellation { group, after } = read_cancellation(written);
        kept_of(lines, cancelled, group) <= after
    })
}

/// The name of the lemma's theory.
fn theory_of(name: &[u8]) -> &[u8] {
    let end = name.iter().position(is_dot);
    &name[..end.unwrap_or(name.len())]
}

/// How many lemmas of the theory are cancelled in front of the place.
fn gone_before(lines: &[u8], cancelled: Places, theory: &[u8], end: usize) -> usize {
    let mut gone = 0_usize;
    for (place, line) in lines.split(is_line_feed).enumerate() {
        if place < end && cancelled.has(place) && is_in(theory, name_of(line)) {
            gone = gone.saturating_add(1);
        }
    }
    gone
}

/// Whether fewer lemmas than there are workers are cancelled in front of a kept lemma of their theory.
fn is_in_order(lines: &[u8], cancelled: Places, workers: usize) -> bool {
    for (place, line) in lines.split(is_line_feed).enumerate() {
        let name = name_of(line);
        let is_kept = !name.is_empty() && !cancelled.has(place);
        if is_kept && gone_before(lines, cancelled, theory_of(name), place) >= workers {
            return false;
        }
    }
    true
}

/// The lemmas that one worker cancels: those that are due when they are taken, in their order.
fn cancelled_by_one(words: &[u8], lines: &[u8]) -> Places {
    let mut cancelled = Places::none();
    let mut kept = 0_usize;
    let mut faults = 0_usize;
    for (place, line) in lines.split(is_line_feed).enumerate() {
        let name = name_of(line);
        if name.is_empty() {
            continue;
        }
        if is_due(words, kept, faults, name) {
            cancelled = cancelled.with(place);
        } else {
            kept = kept.saturating_add(1);
            faults = faults.saturating_add(usize::from(is_fault(line)));
        }
    }
    cancelled
}

/// Whether so many workers may have cancelled just these lemmas.
pub(crate) fn is_heeded(words: &[u8], lines: &[u8], cancelled: Places, workers: usize) -> bool {
    if workers == 1 {
        return cancelled == cancelled_by_one(words, lines);
    }
    is_licensed(words, lines, cancelled)
        && is_obeyed(words, lines, cancelled)
        && is_in_order(lines, cancelled, workers)
}
