//! The message of a refusal, with its reason.
use hume_base::{Refusal, Rule};
use look_reasons::{Reason, remedy, sentence};
use look_sources::{Page, Spot};

/// How many lines with broken rules are told at most after the first one.
pub(crate) const MAX_OTHERS: usize = 99;

/// Puts how many of these others aren't told, if there are too many.
pub(crate) fn put_more(others: usize, page: &mut Page) {
    let more = others.saturating_sub(MAX_OTHERS);
    if more > 0 {
        page.put(b"and ");
        page.number(more as u64);
        page.put(b" more\n");
    }
}

/// Puts the message on the source of that name and text: each reason with its place, and then the remedy.
pub(crate) fn put_messages(
    name: &[u8],
    text: &[u8],
    refusal: Refusal,
    reasons: &[Reason],
    page: &mut Page,
) {
    for reason in reasons {
        put_reason(name, text, refusal, reason, page);
    }
    if let Some(reason) = reasons.last() {
        put_remedy(refusal.rule, reason, page);
    }
}

/// Puts the message with its one reason.
pub(crate) fn put_message(
    name: &[u8],
    text: &[u8],
    refusal: Refusal,
    reason: &Reason,
    page: &mut Page,
) {
    put_reason(name, text, refusal, reason, page);
    put_remedy(refusal.rule, reason, page);
}

// The head names the place itself. Where that is in another line than the one of the refusal, it names that one too.
fn put_reason(name: &[u8], text: &[u8], refusal: Refusal, reason: &Reason, page: &mut Page) {
    let Some(place) = reason.here.or(reason.head) else {
        put_without_place(name, refusal, reason, page);
        return;
    };
    let spot = Spot::of(text, place);
    spot.put_head(name, page);
    put_sentence(refusal, page);
    if spot.line != refusal.line {
        page.put(b", in the declaration of line ");
        page.number(u64::from(refusal.line));
    }
    page.put(b"\n");
    spot.put_line(text, page);
    page.append(&reason.note);
}

fn put_without_place(name: &[u8], refusal: Refusal, reason: &Reason, page: &mut Page) {
    page.put(name);
    page.put(b":");
    page.number(u64::from(refusal.line));
    page.put(b":1: ");
    put_sentence(refusal, page);
    page.put(b"\n");
    page.append(&reason.note);
}

fn put_sentence(refusal: Refusal, page: &mut Page) {
    page.put(b"refused ");
    page.number(u64::from(refusal.rule.code()));
    page.put(b": ");
    page.put(sentence(refusal.rule));
}

// The remedy of the reason, if it has one of its own.
fn put_remedy(rule: Rule, reason: &Reason, page: &mut Page) {
    page.put(b"  remedy: ");
    page.put(reason.remedy.unwrap_or(remedy(rule)));
    page.put(b"\n");
}
