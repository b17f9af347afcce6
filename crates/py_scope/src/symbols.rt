//! What a name is in a scope, once its kind is known.
ghost use Rattle.std.specs.Prelude.{◌≡◌, ◌==◌, ◌||◌, ◌++◌, ◌∷◌, [], false, length, slice_get, find, IfOk, OnOk, OnErr};
ghost use Rattle.std.specs.Option.{option_copied};
ghost use Rattle.std.specs.List.{list_any};
ghost use Rattle.py_scope.specs.Names.{same_name};
ghost use Rattle.py_scope.specs.Bits.{intersects};
ghost use Rattle.py_scope.specs.Symbols.{AreApart, is_global_kind, is_local_kind};

use crate::flags::SymbolFlags;
use crate::kinds::SymbolScope;
use bitflags::Flags;
use indexmap::IndexMap;
use py_base::Text;
use std::alloc::{AllocError, Global};
use std::fmt;
use std::marker::Model;

/// What a name is in a scope.
#[derive(Debug, Drop)]
pub struct Symbol {
    pub name: Text,
    pub scope: SymbolScope,
    pub flags: SymbolFlags,
}

impl Symbol {
    /// Whether the name is a global one, declared or not.
    pub fn is_global(&self) -> bool
        ensures { result ≡ is_global_kind self.now.scope }
    {
        matches!(
            self.scope,
            SymbolScope::GlobalExplicit | SymbolScope::GlobalImplicit
        )
    }

    /// Whether the scope itself holds the name, in a cell or not.
    pub fn is_local(&self) -> bool
        ensures { result ≡ is_local_kind self.now.scope }
    {
        matches!(self.scope, SymbolScope::Local | SymbolScope::Cell)
    }

    /// Whether the scope binds the name: it assigns, imports or iterates it, or has it as a parameter.
    pub fn is_bound(&self) -> bool
        ensures { result ≡ intersects self.now.flags.0 0x096 }
    {
        self.flags.intersects(SymbolFlags::BOUND)
    }

    /// An equal symbol.
    ///
    /// # Errors
    /// There is no memory for the copy.
    pub fn try_clone(&self, alloc: Global) -> Result<Symbol, AllocError>
        ensures { IfOk result (λ symbol. symbol ≡ self.now) }
    {
        Ok(Symbol {
            name: self.name.try_clone(alloc)?,
            scope: self.scope,
            flags: self.flags,
        })
    }
}

/// The symbols of a scope in order, each name once. Contracts see the list of the symbols.
#[derive(Drop)]
pub struct Symbols {
    map: IndexMap<String, Symbol>,
}

impl Model for Symbols {
    ghost use Rattle.std.specs.Prelude.{List};
    ghost use Rattle.py_scope.specs.declared.symbols.Symbol.{Symbol as Fact};
    ghost use Rattle.py_scope.specs.SymbolList.{values_of, IsNamed};

    ghost Value = { List Fact };

    ghost view = { λ a. values_of a.map.entries };

    ghost invariant = { λ a. IsNamed a.map.entries };
}

impl Symbols {
    /// No symbols. It takes no memory.
    pub fn new(alloc: Global) -> Symbols
        ensures { result ≡ [] }
    {
        Symbols {
            map: IndexMap::new(alloc),
        }
    }

    /// How many symbols there are.
    pub fn len(&self) -> usize
        ensures len { result ≡ length self.now }
        ensures distinct { AreApart self.now }
    {
        self.map.len()
    }

    /// The symbol of this name. None exactly where there is none.
    pub fn get(&self, name: &str) -> Option<&Symbol>
        ensures { option_copied result ≡ find (λ s. same_name name.now s.name) self.now }
    {
        self.map.get(name)
    }

    /// The symbol at place `i`, counted from 0. None exactly where there is none.
    pub fn get_index(&self, i: usize) -> Option<&Symbol>
        ensures { option_copied result ≡ slice_get self.now i }
    {
        match self.map.get_index(i) {
            Some((_, symbol)) => Some(symbol),
            None => None,
        }
    }

    /// Equal symbols.
    ///
    /// # Errors
    /// There is no memory for the copy.
    pub fn try_clone(&self, alloc: Global) -> Result<Symbols, AllocError>
        ensures { IfOk result (λ symbols. symbols ≡ self.now) }
    {
        let mut copy = Symbols::new(alloc);
        for i in 0..self.len() {
            if let Some(symbol) = self.get_index(i) {
                let symbol = symbol.try_clone(alloc)?;
                copy.push(alloc, symbol)?;
            }
        }
        Ok(copy)
    }

    /// Puts a symbol last, whose name is not there yet.
    pub(crate) fn push(&mut self, alloc: Global, symbol: Symbol) -> Result<(), AllocError>
        requires { list_any (λ s. same_name symbol.name s.name) self.old ≡ false }
        ensures ok { OnOk result (self.new ≡ self.old ++ symbol ∷ []) }
        ensures err { OnErr result (self.new ≡ self.old) }
    {
        let key = String::from_str(alloc, symbol.name.as_str())?;
        self.map.insert(key, symbol)?;
        Ok(())
    }
}

impl fmt::Debug for Symbols {
    fn fmt<W: fmt::Write>(&self, f: &mut fmt::Formatter<W>) -> fmt::Result {
        f.debug_list().entries(self.map.values()).finish()
    }
}
