ghost use Rattle.std.specs.Prelude.{◌≡◌, ◌⊎◌, ℕ, ◌<◌, List, length, All};
ghost use Rattle.hume_base.specs.declared.token.Token.{Token};
ghost use Rattle.hume_lex.specs.Reading.{IsReading};
ghost use Rattle.hume_lex.specs.BadPlaces.{IsRead, IsBadPlace, bad_place};
ghost use Rattle.hume_lex.specs.declared.lexer.LexError.{LexError};

/// The laws of readings: a source has one reading at most, and either one within the limits or one bad place.
pub fn one_answer()
    ensures some { (source : List ℕ)
        → ((tokens : List Token) × IsRead source tokens) ⊎ ((error : LexError) × IsBadPlace source error) }
    ensures reading { (source : List ℕ) (tokens others : List Token)
        → IsReading source tokens → IsReading source others → tokens ≡ others }
    ensures bad_place { (source : List ℕ) (error other : LexError)
        → IsBadPlace source error → IsBadPlace source other → error ≡ other }
    ensures apart { (source : List ℕ) (tokens : List Token) (error : LexError)
        → IsRead source tokens → IsBadPlace source error → ⊥ }
{}

/// Each place that is told is one of the source.
pub fn places_are_within()
    ensures tokens { (source : List ℕ) (tokens : List Token)
        → IsReading source tokens → All (λ token. token.place < length source) tokens }
    ensures bad_place { (source : List ℕ) (error : LexError)
        → IsBadPlace source error → bad_place error < length source }
{}
