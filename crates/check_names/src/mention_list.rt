ghost use Rattle.std.specs.Prelude.{◌≡◌, ◌<◌, ◌∷◌, [], ◌++◌, Some, length, slice_get, OnOk, IfOk};

use hume_base::Text;
use std::alloc::{AllocError, Global};
use std::marker::Model;

/// What a name stands for where it is mentioned. `Unbound` is a small name without arguments that is no variable in scope.
#[derive(Clone, Copy, Debug, PartialEq, Eq)]
pub enum NameKind {
    DataType,
    Constructor,
    Exception,
    Function,
    Unbound,
}

/// Names that a tree mentions.
#[derive(Drop)]
pub(crate) struct MentionList<'a> {
    mentions: Vec<(NameKind, &'a [u8])>,
}

impl<'a> Model for MentionList<'a> {
    ghost use Rattle.std.specs.Prelude.{List, ℕ, map};
    ghost use Rattle.check_names.specs.declared.mention_list.NameKind.{NameKind};

    ghost Value = { List (NameKind × List ℕ) };

    ghost view = { λ list. map (λ mention. (mention.0, mention.1.now)) list.mentions.items };
}

impl<'a> MentionList<'a> {
    pub(crate) fn new(alloc: Global) -> MentionList<'a>
        ensures { result ≡ [] }
    {
        MentionList {
            mentions: Vec::new(alloc),
        }
    }

    pub(crate) fn push(&mut self, kind: NameKind, name: &'a Text) -> Result<(), AllocError>
        ensures { OnOk result (self.new ≡ self.old ++ (kind, name.now) ∷ []) }
    {
        self.mentions.push((kind, name.bytes()))?;
        Ok(())
    }

    pub(crate) fn len(&self) -> usize
        ensures { result ≡ length self.now }
    {
        self.mentions.len()
    }

    pub(crate) fn get(&self, at: usize) -> (NameKind, &'a [u8])
        requires { at < length self.now }
        ensures { slice_get self.now at ≡ Some (result.0, result.1.now) }
    {
        self.mentions[at]
    }
}
