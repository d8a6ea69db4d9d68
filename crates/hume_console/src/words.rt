ghost use Rattle.std.specs.Prelude.{◌≡◌, ◌≤◌, IfSome, map, string_bytes};
ghost use Rattle.hume_base.specs.declared.limits.TheConstants.{MAX_WORKERS};
ghost use Rattle.hume_console.specs.Words.{is_standard as standard, opening_of, workers_of as asked_workers};

use hume_base::limits::MAX_WORKERS;
use hume_calls::words::numbers::{is_number, value};

/// The place of the source's name among the words.
const SOURCE: usize = 1;

/// What the words of a call ask for: a session on that many workers. Its source is in the port that the word of a place names.
#[derive(Clone, Copy, Debug, PartialEq, Eq)]
pub struct Opening {
    pub workers: u32,
    pub source: usize,
}

/// What the words of a call ask for, if they have the form `WORKERS SOURCE PORT..`.
pub fn read_words(words: &[String]) -> Option<Opening>
    ensures opening { result ≡ opening_of (map string_bytes words.now) }
    ensures workers { IfSome result (λ opening. opening.workers ≤ MAX_WORKERS) }
{
    let [workers, source, ..] = words else {
        return None;
    };
    if is_standard(source) {
        return None;
    }
    let workers = workers_of(workers)?;
    Some(Opening {
        workers,
        source: SOURCE,
    })
}

// The number of workers that a word writes, if it is one.
fn workers_of(word: &str) -> Option<u32>
    ensures { result ≡ asked_workers word.now }
{
    let word = word.as_bytes();
    if !is_number(word) {
        return None;
    }
    let workers = value(word);
    if 1 <= workers && workers <= MAX_WORKERS {
        return Some(workers);
    }
    None
}

/// Whether the port of that name is always there, and no source's.
pub fn is_standard(name: &str) -> bool
    ensures { result ≡ standard name.now }
{
    name == "std_in" || name == "std_out"
}
