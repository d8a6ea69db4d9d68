//! The names that a file declares.
ghost use Rattle.std.specs.Prelude.{◌≡◌, ◌<◌, ◌^◌, ◌++◌, codes, IfOk};
ghost use Rattle.std.specs.List.{list_any, starts_with};
ghost use Rattle.std.specs.Prelude.{nat_eq, map};
ghost use Rattle.c_names.specs.Names.{words, begins_with_word as begins, mark_of as mark_told, names_of, inner, outer, rule_name};

use c_forms::{joined, numbered};
use hume_base::Text;
use std::alloc::{AllocError, Global};

/// How the names of a file begin.
#[derive(Drop)]
pub struct Names {
    pub program: Text,
    pub mark: Text,
}

// With these words names begin that no other file sees.
const WORDS: [&[u8]; 22] = [
    b"f_",
    b"T_",
    b"C_",
    b"b_",
    b"s_",
    b"RAISES_",
    b"raised_",
    b"execute_",
    b"super_",
    b"rule",
    b"handle_",
    b"to_",
    b"add_",
    b"sub_",
    b"mul_",
    b"div_",
    b"mod_",
    b"neg_",
    b"less_",
    b"most_",
    b"same_",
    b"valid_",
];

impl Names {
    /// The names of a program.
    pub fn of(alloc: Global, program: &[u8]) -> Result<Names, AllocError>
        ensures { IfOk result (λ names. names ≡ names_of program.now) }
    {
        let mark = mark_of(alloc, program)?;
        Ok(Names {
            program: Text::from_bytes(alloc, program)?,
            mark,
        })
    }

    pub fn program(&self) -> &[u8]
        ensures { result.now ≡ self.now.program }
    {
        self.program.bytes()
    }

    /// A name that no other file sees.
    pub fn inner(&self, alloc: Global, word: &[u8], name: &[u8]) -> Result<Text, AllocError>
        ensures { IfOk result (λ made. made ≡ inner self.now word.now name.now) }
    {
        joined(alloc, &[self.mark.bytes(), word, name])
    }

    /// A name that other files see.
    pub fn outer(&self, alloc: Global, word: &[u8], name: &[u8]) -> Result<Text, AllocError>
        ensures { IfOk result (λ made. made ≡ outer self.now word.now name.now) }
    {
        joined(alloc, &[self.program.bytes(), word, name])
    }

    pub fn function(&self, alloc: Global, name: &[u8]) -> Result<Text, AllocError>
        ensures { IfOk result (λ made. made ≡ inner self.now (codes "f_") name.now) }
    {
        self.inner(alloc, b"f_", name)
    }

    pub fn data_type(&self, alloc: Global, name: &[u8]) -> Result<Text, AllocError>
        ensures { IfOk result (λ made. made ≡ inner self.now (codes "T_") name.now) }
    {
        self.inner(alloc, b"T_", name)
    }

    pub fn constructor(&self, alloc: Global, name: &[u8]) -> Result<Text, AllocError>
        ensures { IfOk result (λ made. made ≡ inner self.now (codes "C_") name.now) }
    {
        self.inner(alloc, b"C_", name)
    }

    pub fn box_object(&self, alloc: Global, name: &[u8]) -> Result<Text, AllocError>
        ensures { IfOk result (λ made. made ≡ inner self.now (codes "b_") name.now) }
    {
        self.inner(alloc, b"b_", name)
    }

    pub fn stream_object(&self, alloc: Global, name: &[u8]) -> Result<Text, AllocError>
        ensures { IfOk result (λ made. made ≡ inner self.now (codes "s_") name.now) }
    {
        self.inner(alloc, b"s_", name)
    }

    /// The constant of an exception.
    pub fn exception(&self, alloc: Global, name: &[u8]) -> Result<Text, AllocError>
        ensures { IfOk result (λ made. made ≡ inner self.now (codes "RAISES_") name.now) }
    {
        self.inner(alloc, b"RAISES_", name)
    }

    /// The object that has what an exception carries.
    pub fn carried(&self, alloc: Global, name: &[u8]) -> Result<Text, AllocError>
        ensures { IfOk result (λ made. made ≡ inner self.now (codes "raised_") name.now) }
    {
        self.inner(alloc, b"raised_", name)
    }

    pub fn execute(&self, alloc: Global, name: &[u8]) -> Result<Text, AllocError>
        ensures { IfOk result (λ made. made ≡ inner self.now (codes "execute_") name.now) }
    {
        self.inner(alloc, b"execute_", name)
    }

    pub fn super_step(&self, alloc: Global, name: &[u8]) -> Result<Text, AllocError>
        ensures { IfOk result (λ made. made ≡ inner self.now (codes "super_") name.now) }
    {
        self.inner(alloc, b"super_", name)
    }

    pub fn handler(&self, alloc: Global, name: &[u8]) -> Result<Text, AllocError>
        ensures { IfOk result (λ made. made ≡ inner self.now (codes "handle_") name.now) }
    {
        self.inner(alloc, b"handle_", name)
    }

    /// The hook that gives the next value of an input stream.
    pub fn read_hook(&self, alloc: Global, name: &[u8]) -> Result<Text, AllocError>
        ensures { IfOk result (λ made. made ≡ outer self.now (codes "_read_") name.now) }
    {
        self.outer(alloc, b"_read_", name)
    }

    /// The hook that takes the next value of an output stream.
    pub fn write_hook(&self, alloc: Global, name: &[u8]) -> Result<Text, AllocError>
        ensures { IfOk result (λ made. made ≡ outer self.now (codes "_write_") name.now) }
    {
        self.outer(alloc, b"_write_", name)
    }

    /// The function of a rule of a box, by its number from 1 on.
    pub fn rule(&self, alloc: Global, number: u64, name: &[u8]) -> Result<Text, AllocError>
        ensures { IfOk result (λ made. made ≡ rule_name self.now number name.now) }
    {
        let word = numbered(alloc, b"rule", number)?;
        let word = joined(alloc, &[word.bytes(), b"_"])?;
        self.inner(alloc, word.bytes(), name)
    }
}

fn mark_of(alloc: Global, program: &[u8]) -> Result<Text, AllocError>
    ensures { IfOk result (λ mark. mark ≡ mark_told program.now) }
{
    let name = joined(alloc, &[program, b"_"])?;
    if begins_with_word(name.bytes()) {
        Text::from_bytes(alloc, b"x")
    } else {
        Text::from_bytes(alloc, b"")
    }
}

// Whether the name begins with one of the words.
fn begins_with_word(name: &[u8]) -> bool
    ensures { result ≡ begins name.now }
{
    begins_with_one(name, &WORDS)
}

fn begins_with_one(name: &[u8], words: &[&[u8]]) -> bool
    ensures { result ≡ list_any (λ word. starts_with nat_eq name.now word) (map (λ other. other.now) words.now) }
{
    for word in words {
        if name.starts_with(*word) {
            return true;
        }
    }
    false
}
