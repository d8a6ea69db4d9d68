//! The constructors of all data types, by their names.
ghost use Rattle.std.specs.Prelude.{◌≡◌, ◌+◌, ◌∷◌, [], ◌++◌, List, map, length, slice_get, option_map, option_and_then, IfOk, OnOk};
ghost use Rattle.hume_base.specs.declared.types.SumDef.{SumDef as DataType};
ghost use Rattle.check_typing.specs.Signatures.{con_among};
ghost use Rattle.check_tables.specs.names.Names.{with_name, with_names};
ghost use Rattle.check_scopes.specs.signatures.Numbered.{seen, numbered_in};
ghost use Rattle.check_scopes.specs.signatures.inner.Tables.{numbered_from, name_of_constructor, place_of, those_of_one, IsConstructorTable};

use check_tables::names::NameTable;
use hume_base::{ConDef, List, Shared, SumDef, Ty};
use std::alloc::{AllocError, Global};

/// A constructor: the number of its data type, its place in it, its number among the constructors of all data types in their
/// order, and the types of its fields.
#[derive(Clone, Copy)]
pub struct Found<'a> {
    pub data_type: u32,
    pub place: u32,
    pub number: u32,
    pub fields: &'a List<Shared<Ty>>,
}

/// All constructors in the order of their numbers, and the numbers by their names.
#[derive(Drop)]
pub(crate) struct ConstructorTable<'a> {
    pub(crate) names: NameTable<'a>,
    pub(crate) all: Vec<Found<'a>>,
}

impl<'a> ConstructorTable<'a> {
    /// The constructors of the data types.
    pub(crate) fn of(
        alloc: Global,
        data_types: &'a [SumDef],
    ) -> Result<ConstructorTable<'a>, AllocError>
        ensures { IfOk result (IsConstructorTable data_types.now) }
    {
        let mut table = ConstructorTable {
            names: NameTable::new(alloc),
            all: Vec::new(alloc),
        };
        add_data_types(&mut table, data_types)?;
        Ok(table)
    }

    pub(crate) fn find(&self, name: &[u8]) -> Option<Found<'a>>
        ensures { (sums : List DataType) → IsConstructorTable sums self.now
            → option_map seen result ≡ option_map (numbered_in sums) (con_among name.now sums) }
    {
        found_in(self.all.as_slice(), self.names.find(name))
    }

    fn add(
        &mut self,
        constructor: &'a ConDef,
        data_type: usize,
        place: usize,
    ) -> Result<(), AllocError>
        ensures names { OnOk result (self.new.names ≡ with_name self.old.names constructor.now.name (length self.old.all.items)) }
        ensures all { OnOk result (map seen self.new.all.items ≡ map seen self.old.all.items
            ++ (place_of data_type place constructor.now, length self.old.all.items) ∷ []) }
        ensures count { OnOk result (length self.new.all.items ≡ length self.old.all.items + 1) }
    {
        let number = self.all.len();
        let found = found_at(data_type, place, number, &constructor.fields)?;
        let _is_new = self.names.add(constructor.name.bytes(), number)?;
        self.all.push(found)?;
        Ok(())
    }
}

fn found_in<'a>(all: &[Found<'a>], number: Option<usize>) -> Option<Found<'a>>
    ensures { option_map seen result ≡ option_and_then (slice_get (map seen all.now)) number }
{
    match number {
        None => None,
        Some(number) if number < all.len() => Some(all[number]),
        Some(_) => None,
    }
}

#[tactic(auto, using(crate::proofs::signatures_lemmas::Steps::table_steps))]
fn add_data_types<'a>(
    table: &mut ConstructorTable<'a>,
    data_types: &'a [SumDef],
) -> Result<(), AllocError>
    requires names { table.old.names ≡ [] }
    requires all { table.old.all.items ≡ [] }
    ensures { OnOk result (IsConstructorTable data_types.now table.new) }
{
    for (number, data_type) in data_types.iter().enumerate() {
        add_constructors(table, number, data_type.cons.as_slice())?;
    }
    Ok(())
}

#[tactic(auto, using(crate::proofs::signatures_lemmas::Steps::table_steps))]
fn add_constructors<'a>(
    table: &mut ConstructorTable<'a>,
    data_type: usize,
    constructors: &'a [ConDef],
) -> Result<(), AllocError>
    ensures names { OnOk result (table.new.names
        ≡ with_names table.old.names (numbered_from name_of_constructor (length table.old.all.items) constructors.now)) }
    ensures all { OnOk result (map seen table.new.all.items
        ≡ map seen table.old.all.items ++ those_of_one data_type 0 (length table.old.all.items) constructors.now) }
    ensures count { OnOk result (length table.new.all.items ≡ length table.old.all.items + length constructors.now) }
{
    for (place, constructor) in constructors.iter().enumerate() {
        table.add(constructor, data_type, place)?;
    }
    Ok(())
}

// Memory is wanted where a number has more than 32 bits.
fn found_at<'a>(
    data_type: usize,
    place: usize,
    number: usize,
    fields: &'a List<Shared<Ty>>,
) -> Result<Found<'a>, AllocError>
    ensures { IfOk result (λ found. seen found ≡ (record { sum = data_type; place = place; fields = fields.now }, number)) }
{
    Ok(Found {
        data_type: small(data_type)?,
        place: small(place)?,
        number: small(number)?,
        fields,
    })
}

fn small(number: usize) -> Result<u32, AllocError>
    ensures { IfOk result (λ same. same ≡ number) }
{
    match u32::try_from(number) {
        Ok(same) => Ok(same),
        Err(_) => Err(AllocError),
    }
}
