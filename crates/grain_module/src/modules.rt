//! Modules: variables, functions of a host and iterators that a program or an engine brings along.

ghost use Rattle.std.specs.Prelude.{◌≡◌, ◌++◌, ◌∷◌, [], Some, IfOk, is_ok, bytes_eq, ◌&&◌, if◌then◌else◌};
ghost use Rattle.std.specs.Option.{option_copied};
ghost use Rattle.grain_module.specs.Modules.{empty_module, variable_named, function_of, global_function_of, iterator_of};

use grain_value::{Dynamic, Kinds, List, Native, OutOfMemory, Text};
use std::alloc::Global;
use std::marker::Model;
use std::rc::Rc;

/// A variable of a module.
#[derive(Drop)]
pub struct ModuleVariable {
    /// Its name.
    pub name: Text,
    /// Its value, which can only be read.
    pub value: Dynamic,
}

/// A function of a module, which is one of the host's.
#[derive(Drop)]
pub struct ModuleFunction {
    /// Its name.
    pub name: Text,
    /// The kinds of the arguments that it takes.
    pub kinds: Kinds,
    /// What the host is called with.
    pub native: Native,
    /// Whether it is found without the module's name.
    pub global: bool,
}

/// How a module goes over the values of a kind.
#[derive(Drop)]
pub struct ModuleIterator {
    /// The kind of the values.
    pub kind: u32,
    /// The number by which the host knows the iterator.
    pub number: u64,
}

/// A module. Several variables, functions or iterators may stand under one key: the first counts.
#[derive(Drop)]
pub struct Module {
    // the allocator of the id
    alloc: Global,
    variables: List<ModuleVariable>,
    functions: List<ModuleFunction>,
    iterators: List<ModuleIterator>,
    id: Option<Text>,
}

impl Model for Module {
    ghost use Rattle.grain_module.specs.Modules.{ModuleView};
    ghost use Rattle.std.specs.Coded.{codes};
    ghost use Rattle.grain_value.specs.laws.TreeCode.{coded_tree};

    ghost Value = { ModuleView };

    ghost coded = { Prim.hlevel (codes, coded_tree) };

    ghost view = { λ m. record {
      variables = m.variables;
      functions = m.functions;
      iterators = m.iterators;
      id = m.id;
    } };
}

impl Module {
    /// A module in which nothing stands, and that has no id. It takes no memory.
    pub fn new(alloc: Global) -> Module
        ensures { result ≡ empty_module }
    {
        Module {
            alloc,
            variables: List::new(alloc),
            functions: List::new(alloc),
            iterators: List::new(alloc),
            id: None,
        }
    }

    /// Adds a variable. After want of memory the module is as it was.
    pub fn push_var(&mut self, name: Text, value: Dynamic) -> Result<(), OutOfMemory>
        ensures { self.new ≡ (if is_ok result
            then record self.old {
              variables = self.old.variables ++ record { name = name; value = value } ∷ [];
            }
            else self.old) }
    {
        self.variables.push(ModuleVariable { name, value })
    }

    /// Adds a function under its name and the kinds of its arguments. One that is marked global is
    /// found without the module's name too. After want of memory the module is as it was.
    pub fn push_fn(
        &mut self,
        name: Text,
        kinds: Kinds,
        native: Native,
        global: bool,
    ) -> Result<(), OutOfMemory>
        ensures { self.new ≡ (if is_ok result
            then record self.old {
              functions = self.old.functions
                  ++ record { name = name; kinds = kinds; native = native; global = global } ∷ [];
            }
            else self.old) }
    {
        self.functions.push(ModuleFunction {
            name,
            kinds,
            native,
            global,
        })
    }

    /// Adds an iterator for the values of a kind, by the number that the host knows. After want of
    /// memory the module is as it was.
    pub fn push_iter(&mut self, kind: u32, number: u64) -> Result<(), OutOfMemory>
        ensures { self.new ≡ (if is_ok result
            then record self.old {
              iterators = self.old.iterators ++ record { kind = kind; number = number } ∷ [];
            }
            else self.old) }
    {
        self.iterators.push(ModuleIterator { kind, number })
    }

    /// Gives the module this id. After want of memory the module is as it was.
    pub fn set_id(&mut self, id: &str) -> Result<(), OutOfMemory>
        ensures { self.new ≡ (if is_ok result then record self.old { id = Some id.now }
            else self.old) }
    {
        let id = Text::copy_of(self.alloc, id)?;
        self.id = Some(id);
        Ok(())
    }

    /// The value of the first variable of the name, if there is one.
    pub fn get_var(&self, name: &str) -> Option<&Dynamic>
        ensures { option_copied result ≡ variable_named name.now self.now.variables }
    {
        for variable in self.variables.as_slice() {
            if variable.name.as_str() == name {
                return Some(&variable.value);
            }
        }
        None
    }

    /// The first function of the name and of these kinds, if there is one.
    pub fn get_fn(&self, name: &str, kinds: &Kinds) -> Option<Native>
        ensures { result ≡ function_of name.now kinds.now self.now.functions }
    {
        for function in self.functions.as_slice() {
            if is_of(function, name, kinds) {
                return Some(function.native);
            }
        }
        None
    }

    /// The first function of the name and of these kinds that is marked global, if there is one.
    pub fn get_global_fn(&self, name: &str, kinds: &Kinds) -> Option<Native>
        ensures { result ≡ global_function_of name.now kinds.now self.now.functions }
    {
        for function in self.functions.as_slice() {
            if function.global && is_of(function, name, kinds) {
                return Some(function.native);
            }
        }
        None
    }

    /// The number of the first iterator for the kind, if there is one.
    pub fn get_iter(&self, kind: u32) -> Option<u64>
        ensures { result ≡ iterator_of kind self.now.iterators }
    {
        for iterator in self.iterators.as_slice() {
            if iterator.kind == kind {
                return Some(iterator.number);
            }
        }
        None
    }

    /// The module's id, if it has one.
    pub fn id(&self) -> Option<&Text>
        ensures { option_copied result ≡ self.now.id }
    {
        self.id.as_ref()
    }

    /// The module with several owners, of which this is the first.
    pub fn share(self, alloc: Global) -> Result<SharedModule, OutOfMemory>
        ensures { IfOk result (λ shared. shared ≡ self) }
    {
        let module = Rc::new(alloc, self)?;
        Ok(SharedModule { module })
    }
}

// Whether the function has this name and these kinds.
fn is_of(function: &ModuleFunction, name: &str, kinds: &Kinds) -> bool
    ensures { result ≡ (bytes_eq function.now.name name.now
        && bytes_eq function.now.kinds kinds.now) }
{
    function.name.as_str() == name && function.kinds.as_slice() == kinds.as_slice()
}

/// A module that several owners share. Clauses see the module.
#[derive(Drop)]
pub struct SharedModule {
    module: Rc<Module>,
}

impl Model for SharedModule {
    ghost use Rattle.grain_module.specs.Modules.{ModuleView};
    ghost use Rattle.std.specs.Coded.{codes};
    ghost use Rattle.grain_value.specs.laws.TreeCode.{coded_tree};

    ghost Value = { ModuleView };

    ghost coded = { Prim.hlevel (codes, coded_tree) };

    ghost view = { λ m. m.module.value };
}

impl SharedModule {
    /// A further owner of the module. It takes no memory, and answers that there is none only where
    /// the number of owners would no longer fit.
    pub fn share(&self) -> Result<SharedModule, OutOfMemory>
        ensures { IfOk result (λ shared. shared ≡ self.now) }
    {
        let module = self.module.clone()?;
        Ok(SharedModule { module })
    }

    /// The module.
    pub fn module(&self) -> &Module
        ensures { result.now ≡ self.now }
    {
        &self.module
    }
}

/// A module under the path by which a program imports it.
#[derive(Drop)]
pub struct ModuleEntry {
    /// The path.
    pub path: Text,
    /// The module.
    pub module: SharedModule,
}

/// Modules by their paths. Of several under one path the first counts.
pub type ModuleTable = List<ModuleEntry>;
