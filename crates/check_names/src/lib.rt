//! The rules on names: each is declared once and known, no function calls itself, no data type holds itself, and no variable is
//! bound twice in one place.
//!
//! Main calls: `first_misnamed`, the least broken rule of 30 to 33, and `first_bound_twice` for 43; each rule also has a call
//! of its own. `name_graph` gives the graphs by which functions and data types are numbered. `Misnamed.antt` defines the rules,
//! over `Repeated.antt`, `Unknown.antt`, `Leading.antt` and `Mentions.antt`, the names that a declaration mentions;
//! `Twice.antt` defines the last one.
//!
//! Proved: `first_misnamed` gives the least broken rule of 30 to 33, and each rule's own call the first declaration that breaks
//! it; `first_bound_twice` gives the first declaration that breaks 43; `name_graph` says which declarations mention which.
//!
//! It knows trees of declarations. It doesn't know types, numbers of arguments, places in the source, or what is reported of a
//! broken rule.
#![tactic(auto)]

mod adding;
mod declared;
mod ends;
mod known;
mod leading;
mod mention_decls;
mod mention_exps;
mod mention_list;
mod mention_types;
mod misnamed;
mod name_list;
mod name_nodes;
mod owner_index;
mod owners;
mod repeated;
mod twice;
mod twice_exps;
mod unknown;

pub use leading::{first_in_call_cycle, first_self_holding, name_graph};
pub use mention_list::NameKind;
pub use misnamed::first_misnamed;
pub use repeated::first_repeated;
pub use twice::first_bound_twice;
pub use unknown::first_unknown;
