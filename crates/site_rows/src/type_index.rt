ghost use Rattle.std.specs.Prelude.{◌≡◌, ◌+◌, ◌++◌, ◌≤◌, ◌∷◌, [], ℕ, List, IfOk, OnOk, length, map};
ghost use Rattle.site_rows.specs.TypeIndexes.{AreNumbers};
ghost use Rattle.site_rows.specs.TypeWords.{type_named, type_of};

use crate::type_word::type_numbered;
use kmc_base::OutOfMemory;
use std::alloc::Global;
use std::collections::BTreeMap;
use std::marker::Model;

/// The names of site types, to look up type words in. Contracts see it as the list of the names.
#[derive(Debug, Drop)]
pub struct TypeIndex<'a> {
    names: &'a [Vec<u8>],
    /// The number of the first type with each name, from 1.
    numbers: BTreeMap<&'a [u8], usize>,
}

impl<'a> Model for TypeIndex<'a> {
    ghost use Rattle.std.specs.Prelude.{ℕ, List, map};
    ghost use Rattle.site_rows.specs.TypeIndexes.{AreNumbers};

    ghost Value = { List (List ℕ) };

    ghost view = { λ index. map (λ name. name.items) index.names.now };

    ghost invariant = { λ index. AreNumbers (map (λ name. name.items) index.names.now) index.numbers };
}

/// Keeps the name of the type with this number, unless a type above has the same name.
fn keep_first<'a>(
    numbers: &mut BTreeMap<&'a [u8], usize>,
    name: &'a [u8],
    number: usize,
) -> Result<(), OutOfMemory>
    ensures { OnOk result ((above : List (List ℕ)) → number ≡ length above + 1 → AreNumbers above numbers.old
        → AreNumbers (above ++ name.now ∷ []) numbers.new) }
{
    if !numbers.contains_key(name) {
        numbers.insert(name, number)?;
    }
    Ok(())
}

/// The number of the first type with each name.
fn numbers_of<'a>(
    alloc: Global,
    names: &'a [Vec<u8>],
) -> Result<BTreeMap<&'a [u8], usize>, OutOfMemory>
    ensures { IfOk result (AreNumbers (map (λ name. name.items) names.now)) }
{
    let mut numbers = BTreeMap::new(alloc);
    for place in 0..names.len() {
        keep_first(&mut numbers, names[place].as_slice(), place + 1)?;
    }
    Ok(numbers)
}

impl<'a> TypeIndex<'a> {
    /// The index of the names of site types in order.
    pub fn new(alloc: Global, names: &'a [Vec<u8>]) -> Result<TypeIndex<'a>, OutOfMemory>
        ensures { IfOk result (λ index. index ≡ map (λ name. name.items) names.now) }
    {
        let numbers = numbers_of(alloc, names)?;
        Ok(TypeIndex { names, numbers })
    }

    /// The number of the type with a name, from 1; 0 where no type has it.
    fn type_named(&self, word: &[u8]) -> usize
        ensures value { result ≡ type_named self.now word.now }
        ensures within { result ≤ length self.now }
    {
        match self.numbers.get(word) {
            Some(number) => *number,
            None => 0,
        }
    }

    /// The type of a type word: that of its number, or else that of its name, or 0 where it is no type. Types are
    /// numbered from 1.
    pub fn type_of(&self, word: &[u8]) -> usize
        ensures value { result ≡ type_of self.now word.now }
        ensures within { result ≤ length self.now }
    {
        match type_numbered(self.names.len(), word) {
            Some(number) => number,
            None => self.type_named(word),
        }
    }
}
