//! The signatures of a program with the tables of their names.
ghost use Rattle.std.specs.Prelude.{◌≡◌, ℕ, ◌<◌, ◌^◌, ◌↔◌, length, option_map, IsTrue, IfOk};
ghost use Rattle.check_typing.specs.Signatures.{sum_named, exn_named, fun_named, con_named};
ghost use Rattle.check_scopes.specs.signatures.Numbered.{seen, numbered_in};
ghost use Rattle.check_scopes.specs.signatures.inner.Tables.{AreFew, numbered_item};

use crate::signatures::constructors::{ConstructorTable, Found};
use crate::signatures::names::{data_type_names, exception_names, function_names};
use check_tables::names::NameTable;
use check_typing::{Signature, Signatures};
use hume_model::ExnDef;
use std::alloc::{AllocError, Global};
use std::marker::Model;

/// Signatures, and what each name in them stands for.
#[derive(Drop)]
pub struct SignatureTable<'a> {
    signatures: &'a Signatures,
    functions: NameTable<'a>,
    exceptions: NameTable<'a>,
    data_types: NameTable<'a>,
    constructors: ConstructorTable<'a>,
}

impl<'a> Model for SignatureTable<'a> {
    ghost use Rattle.std.specs.Coded.{codes};
    ghost use Rattle.hume_base.specs.contracts.types.Ty as ty;
    ghost use Rattle.check_typing.specs.declared.signatures.Signatures.{Signatures};
    ghost use Rattle.check_scopes.specs.signatures.inner.Tables.{AreTables};

    ghost Value = { Signatures };

    ghost coded = { Prim.hlevel (codes, ty.the_row.coded) };

    ghost view = { λ t. t.signatures.now };

    ghost invariant = { λ t. AreTables t.signatures.now t.functions t.exceptions t.data_types t.constructors };
}

impl<'a> SignatureTable<'a> {
    pub fn make(alloc: Global, signatures: &'a Signatures) -> Result<SignatureTable<'a>, AllocError>
        ensures { IfOk result (λ table. table ≡ signatures.now) }
    {
        if !are_few(signatures) {
            return Err(AllocError);
        }
        Ok(SignatureTable {
            signatures,
            functions: function_names(alloc, signatures.funs.as_slice())?,
            exceptions: exception_names(alloc, signatures.exns.as_slice())?,
            data_types: data_type_names(alloc, signatures.types.sums.as_slice())?,
            constructors: ConstructorTable::of(alloc, signatures.types.sums.as_slice())?,
        })
    }

    pub fn signatures(&self) -> &'a Signatures
        ensures { result.now ≡ self.now }
    {
        self.signatures
    }

    /// The number and the signature of the function of a name.
    pub fn function(&self, name: &[u8]) -> Option<(u32, &'a Signature)>
        ensures { option_map (λ found. (found.0, found.1.now)) result ≡ fun_named name.now self.now }
    {
        at_number(self.signatures.funs.as_slice(), self.functions.find(name))
    }

    /// The number and the definition of the exception of a name.
    pub fn exception(&self, name: &[u8]) -> Option<(u32, &'a ExnDef)>
        ensures { option_map (λ found. (found.0, found.1.now)) result ≡ exn_named name.now self.now }
    {
        at_number(self.signatures.exns.as_slice(), self.exceptions.find(name))
    }

    /// The constructor of a name.
    pub fn constructor(&self, name: &[u8]) -> Option<Found<'a>>
        ensures { option_map seen result ≡ option_map (numbered_in self.now.types.sums) (con_named name.now self.now) }
    {
        self.constructors.find(name)
    }

    /// The number of the data type of a name.
    pub fn data_type(&self, name: &[u8]) -> Option<u32>
        ensures { result ≡ option_map (λ found. found.0) (sum_named name.now self.now.types) }
    {
        let found = at_number(
            self.signatures.types.sums.as_slice(),
            self.data_types.find(name),
        );
        number_alone(found)
    }
}

// What has the number, with the number.
fn at_number<'a, T>(items: &'a [T], number: Option<usize>) -> Option<(u32, &'a T)>
    requires { length items.now < 2 ^ 32 }
    ensures { option_map (λ found. (found.0, found.1.now)) result ≡ numbered_item items.now number }
{
    match number {
        None => None,
        Some(number) => match items.get(number) {
            None => None,
            Some(item) => Some((number as u32, item)),
        },
    }
}

fn number_alone<T>(found: Option<(u32, &T)>) -> Option<u32>
    ensures { result ≡ option_map (λ (one : ℕ × T). one.0) (option_map (λ one. (one.0, one.1.now)) found.entry) }
{
    match found {
        None => None,
        Some((number, _)) => Some(number),
    }
}

// Whether all numbers of functions, exceptions and data types have 32 bits.
fn are_few(signatures: &Signatures) -> bool
    ensures { IsTrue result → AreFew signatures.now }
{
    is_small(signatures.funs.len())
        && (is_small(signatures.exns.len()) && is_small(signatures.types.sums.len()))
}

fn is_small(count: usize) -> bool
    ensures { IsTrue result ↔ (count < 2 ^ 32) }
{
    count <= u32::MAX as usize
}
