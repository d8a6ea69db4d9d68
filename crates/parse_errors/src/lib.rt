//! What is reported of tokens that stand for no program: which token is wrong, and whether only depth forbids it.
//!
//! Main call: `reported`, from the stop of a reader, which counts tokens, to the place of the wrong token. `WrongTokens.antt`
//! defines that place (`IsWrongPlace`).
//!
//! Proved: `reported` gives, for the stop of a reader, the first token with which no program of the grammar continues although
//! one continues with the tokens before it, or the end where a program continues after all of them. It reports depth exactly
//! where a program that is only too deep continues with that token (`IsWrongPlace`). Law: each list of tokens stands for a
//! program or has one such place, never both and never two (`each_list_has_one_answer`).
//!
//! It knows tokens with their places, and by `parse_readers` where readers of lists stop. It doesn't know how a program is read
//! from a slice.
#![tactic(auto)]

mod laws;
mod parse_error;
mod reports;
mod stop;

pub use laws::each_list_has_one_answer;
pub use parse_error::ParseError;
pub use reports::reported;
pub use stop::Stop;
