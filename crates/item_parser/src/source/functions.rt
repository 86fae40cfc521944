//! The names of a module's functions.

ghost use Rattle.std.specs.Prelude.{◌≡◌, IfOk};
ghost use Rattle.syntax_tree.specs.FunctionNames.{function_names};
ghost use Rattle.base.specs.Names.{IsSetOf, has};

use base::memory::NoMemory;
use base::name::Name;
use parser_base::signs::is_word;
use std::alloc::Global;
use std::collections::BTreeSet;
use std::marker::Model;
use syntax_tree::member::{Member, MemberForm};
use tokens::token::{Token, TokenKind};

/// The names of a module's functions.
#[derive(Drop)]
pub struct FunctionNames {
    names: BTreeSet<Name>,
}

impl Model for FunctionNames {
    ghost use Rattle.std.specs.Prelude.{List, ℕ};
    ghost use Rattle.std.specs.BTreeSet.{BTreeSet};

    ghost Value = { BTreeSet (List ℕ) };

    ghost view = { λ f. f.names };
}

impl FunctionNames {
    /// Returns the empty set of names.
    pub fn new(alloc: Global) -> FunctionNames {
        FunctionNames {
            names: BTreeSet::new(alloc),
        }
    }

    /// Decides whether a function has this name.
    pub fn contains(&self, name: &Name) -> bool
        ensures { result ≡ has self.now name.now }
    {
        self.names.contains(name)
    }
}

/// Returns the names of the functions among the members.
pub fn function_names(alloc: Global, members: &[Member]) -> Result<FunctionNames, NoMemory>
    ensures { IfOk result (λ names. IsSetOf names (function_names members.now)) }
{
    let mut names = BTreeSet::new(alloc);
    for member in members {
        if let MemberForm::Function(function) = &member.form {
            names.insert(function.name.text.try_clone(alloc)?)?;
        }
    }
    Ok(FunctionNames { names })
}

/// Returns the names of the functions that these tokens declare, up to the next module.
pub fn names_among(alloc: Global, tokens: &[Token]) -> Result<FunctionNames, NoMemory> {
    let mut names = BTreeSet::new(alloc);
    let mut behind_spec = false;
    let mut behind_fun = false;
    for token in tokens {
        let kind = &token.kind;
        if behind_fun {
            if let TokenKind::Word(name) = kind {
                names.insert(name.try_clone(alloc)?)?;
            }
        }
        if is_word(kind, b"module") && !behind_spec {
            break;
        }
        behind_fun = is_word(kind, b"fun") && !behind_spec;
        behind_spec = is_word(kind, b"spec");
    }
    Ok(FunctionNames { names })
}
