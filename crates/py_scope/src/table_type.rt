//! The kinds of scopes.
use std::fmt;

/// What a scope is.
#[derive(Clone, Copy, Debug, PartialEq, Eq)]
pub enum SymbolTableType {
    Module,
    Class,
    Function,
    Comprehension,
    /// The scope that holds the type parameters of a function, a class or a type alias.
    TypeParams,
}

impl fmt::Display for SymbolTableType {
    ghost use Rattle.std.specs.Prelude.{Some};
    ghost use Rattle.py_scope.specs.Texts.{kind_text};

    ghost output = { λ k. Some (kind_text k) };

    fn fmt<W: fmt::Write>(&self, f: &mut fmt::Formatter<W>) -> fmt::Result {
        match self {
            SymbolTableType::Module => f.write_str("module"),
            SymbolTableType::Class => f.write_str("class"),
            SymbolTableType::Function => f.write_str("function"),
            SymbolTableType::Comprehension => f.write_str("comprehension"),
            SymbolTableType::TypeParams => f.write_str("type parameter"),
        }
    }
}
