ghost use Rattle.std.specs.Prelude.{◌≡◌, ◌≤◌, ◌^◌, ◌++◌, [], ℕ, List, length};
ghost use Rattle.hume_streams.specs.Logs.{log_view};
ghost use Rattle.stream_totals.specs.Totals.{number_of, total_of_words};

use hume_base::int_of_word;
use hume_streams::OutLog;

/// How many values there were, and the sum of the numbers that they stand for.
#[derive(Clone, Copy)]
pub struct Total {
    pub count: u128,
    pub sum: i128,
}

impl Total {
    /// The total of no values.
    pub fn none() -> Total
        ensures { result ≡ total_of_words [] }
    {
        Total { count: 0, sum: 0 }
    }

    /// Counts the values that the log holds.
    pub fn add(&mut self, log: &OutLog)
        requires few { (rows : List (List ℕ)) × (self.old ≡ total_of_words rows) × (length rows ≤ 2 ^ 61) }
        ensures { (rows : List (List ℕ)) → self.old ≡ total_of_words rows → self.new ≡ total_of_words (rows ++ (log_view log.now).values) }
    {
        let count = log.count();
        for place in 0..count {
            self.sum += i128::from(number(log.at(place)));
        }
        self.count += u128::from(count);
    }
}

// The number that a value of these words stands for.
fn number(words: &[u64]) -> i64
    ensures { result ≡ number_of words.now }
{
    match words.first() {
        None => 0,
        Some(word) => int_of_word(*word),
    }
}
