//! Which function a name and a number of arguments mean.

ghost use Rattle.std.specs.Prelude.{◌≡◌, IfOk, length, slice_index_or};
ghost use Rattle.std.specs.List.{position_from};
ghost use Rattle.grain_program.specs.Lookups.{has_text, is_type, is_method, IsIndex, AreFirst};

use crate::code::functions::Function;
use crate::code::pools::Names;
use grain_value::OutOfMemory;
use std::alloc::Global;
use std::collections::BTreeMap;

/// The first untyped function of a name: its number, and how many parameters it has.
#[derive(Clone, Copy, Debug, PartialEq, Eq)]
pub struct First {
    pub number: usize,
    pub count: usize,
}

/// The first untyped function of each name, by the name's index.
pub type FirstFunctions = Vec<Option<First>>;

/// The first untyped function of each of the first `names` names.
pub fn first_functions(
    alloc: Global,
    functions: &[Function],
    names: usize,
) -> Result<FirstFunctions, OutOfMemory>
    ensures first { IfOk result (λ firsts. AreFirst functions.now firsts.items) }
    ensures long { IfOk result (λ firsts. length firsts.items ≡ names) }
{
    let mut firsts = vec![in alloc; None; names]?;
    for number in (0..functions.len()).rev() {
        let function = &functions[number];
        let name = function.name as usize;
        let count = function.params.len();
        if name < firsts.len() && function.this_type.is_none() {
            firsts[name] = Some(First { number, count });
        }
    }
    Ok(firsts)
}

/// The first function of the name, if there is one.
#[inline(always)]
pub fn first_of(firsts: &[Option<First>], name: u32) -> Option<First>
    ensures { result ≡ slice_index_or firsts.now name None }
{
    match firsts.get(name as usize) {
        Some(first) => *first,
        None => None,
    }
}

/// The number of the first untyped function of each name, by its index, with each number of parameters.
pub type FunctionIndex = BTreeMap<(u32, usize), usize>;

/// The first of the untyped ones of these functions, by name and number of parameters.
pub fn index_functions(alloc: Global, functions: &[Function]) -> Result<FunctionIndex, OutOfMemory>
    ensures { IfOk result (λ function_index. IsIndex functions.now function_index) }
{
    let mut function_index = BTreeMap::new(alloc);
    for number in (0..functions.len()).rev() {
        let function = &functions[number];
        if function.this_type.is_none() {
            function_index.insert((function.name, function.params.len()), number)?;
        }
    }
    Ok(function_index)
}

/// Whether the function has a name of this text, and this number of parameters, and is untyped.
fn has_text(names: &Names, text: &str, count: usize, function: &Function) -> bool
    ensures { result ≡ has_text names.now text.now count function.now }
{
    match names.get(function.name as usize) {
        Some(name) => {
            name.as_str() == text && function.this_type.is_none() && function.params.len() == count
        }
        None => false,
    }
}

/// The number of the first untyped function that has a name of this text, with this number of
/// parameters.
pub fn first_by_text(
    names: &Names,
    functions: &[Function],
    text: &str,
    count: usize,
) -> Option<usize>
    ensures { result ≡ position_from (has_text names.now text.now count) 0 functions.now }
{
    for (number, function) in functions.iter().enumerate() {
        if has_text(names, text, count, function) {
            return Some(number);
        }
    }
    None
}

/// Whether this is the index of the name of a type, and the name is this text.
fn is_type(names: &Names, type_name: &str, index: Option<u32>) -> bool
    ensures { result ≡ is_type names.now type_name.now index }
{
    match index {
        Some(index) => match names.get(index as usize) {
            Some(name) => name.as_str() == type_name,
            None => false,
        },
        None => false,
    }
}

/// Whether the function has this name, by its index, and this number of parameters, and is a method of
/// this type alone.
fn is_method(
    names: &Names,
    name_index: u32,
    count: usize,
    type_name: &str,
    function: &Function,
) -> bool
    ensures { result ≡ is_method names.now name_index count type_name.now function.now }
{
    function.name == name_index
        && is_type(names, type_name, function.this_type)
        && function.params.len() == count
}

/// The number of the first function of this name, by its index, with this number of parameters, that
/// is a method of this type alone.
pub fn first_method(
    names: &Names,
    functions: &[Function],
    name_index: u32,
    count: usize,
    type_name: &str,
) -> Option<usize>
    ensures { result ≡ position_from (is_method names.now name_index count type_name.now) 0
        functions.now }
{
    for (number, function) in functions.iter().enumerate() {
        if is_method(names, name_index, count, type_name, function) {
            return Some(number);
        }
    }
    None
}
