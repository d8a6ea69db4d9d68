/// How the code of a rule ended.
#[derive(Debug, Clone, Copy, PartialEq, Eq)]
pub enum Ran {
    /// With the outputs of the rule.
    Outputs,
    /// With those of the handler for the exception of that number.
    Handled(u32),
}
