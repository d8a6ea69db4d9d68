//! Why a source is refused: the sentence of the rule, the place, and the remedy.
//!
//! Main call: `put_why`. Tokens and grammar tell their place. Names are looked up by `look_reasons`; for the other rules of a
//! declaration `wrong` finds the smallest parts that, put away (`apart`), mend it. `parts` then puts declaration by declaration away
//! (`blank`), so that later ones come to light; rules on limits (`large`), wires, exceptions (`raising`, `leaving`)
//! and bounds are told from figures and the core.
//!
//! Proved: nothing beyond safety.

mod apart;
mod blank;
mod expected;
mod fitting;
mod large;
mod leaving;
mod marks;
mod message;
mod parts;
mod raising;
mod telling;
mod trying;
mod wrong;

pub(crate) use telling::put_why;
