//! The meaning of names in one module of a program.

ghost use Rattle.std.specs.Prelude.{◌≡◌, [], not, is_none, OnErr, IfOk, OnOk};
ghost use Rattle.std.specs.List.{list_any};
ghost use Rattle.std.specs.Map.{lookup};
ghost use Rattle.indexmap.specs.IndexSet.{insert_key};
ghost use Rattle.std.specs.Option.{option_map};
ghost use Rattle.base.specs.Names.{same_name};
ghost use Rattle.program.specs.declared.code.Callee.TheVariants.{Storage};
ghost use Rattle.program.specs.declared.spec.SpecCallee.TheVariants.{Builtin};
ghost use Rattle.scopes.specs.Builtins.{storage_operation, spec_builtin};
ghost use Rattle.scopes.specs.EnvironmentData.{entered, with_declared, with_modules, with_names};
ghost use Rattle.scopes.specs.MemberNames.{first_stays, same_declaration, same_name_of_kind};
ghost use Rattle.scopes.specs.Meanings.{IsMeaning, address_meaning, callee_meaning, constant_meaning, declared_meaning, member_meaning, module_meaning, prefix_meaning, schema_meaning, spec_callee_meaning, struct_meaning, builtin_spec_meaning, word_meaning};

use crate::addresses::Addresses;
use crate::builtin::{builtin_function, spec_builtin, spec_move_function, storage_operation};
use crate::fault::NameFault;
use crate::member::{Declaration, MemberId, MemberKind, NameOfKind};
use base::memory::NoMemory;
use base::name::Name;
use base::types::StructId;
use indexmap::IndexSet;
use program::code::Callee;
use program::program::{ConstantId, ModuleId, SchemaId};
use program::spec::SpecCallee;
use program::table::Table;
use std::alloc::Global;
use std::marker::Model;
use syntax_tree::path::{Address, ModuleName, Path};

/// The declarations of all modules, and the names in scope in one module.
#[derive(Drop)]
pub struct Environment {
    addresses: Addresses,
    declared: IndexSet<Declaration>,
    own: ModuleId,
    modules: Table<Name, ModuleId>,
    names: Table<NameOfKind, MemberId>,
}

impl Model for Environment {
    ghost use Rattle.scopes.specs.EnvironmentData.{EnvironmentData};
    ghost use Rattle.std.specs.Coded.{codes};
    ghost use Rattle.scopes.specs.NamedAddresses.{coded_numbers};

    ghost Value = { EnvironmentData };

    ghost coded = { Prim.hlevel (codes, coded_numbers) };

    ghost view = { λ e. record { addresses = e.addresses; declared = e.declared.keys; own = e.own; modules = e.modules; names = e.names } };
}

impl Environment {
    /// Returns the environment of a module without names, in a program without declarations.
    pub fn new(alloc: Global, addresses: Addresses, own: ModuleId) -> Environment
        ensures addresses { result.addresses ≡ addresses }
        ensures declared { result.declared ≡ [] }
        ensures own { result.own ≡ own }
        ensures modules { result.modules ≡ [] }
        ensures names { result.names ≡ [] }
    {
        Environment {
            addresses,
            declared: IndexSet::new(alloc),
            own,
            modules: Table::new(alloc),
            names: Table::new(alloc),
        }
    }

    /// Adds a declaration and returns true, or returns false if there is an equal one. After `NoMemory` the environment
    /// is unchanged.
    pub fn declare(&mut self, declaration: Declaration) -> Result<bool, NoMemory>
        ensures new { IfOk result (λ is_new. is_new ≡ not (list_any (same_declaration declaration) self.old.declared)) }
        ensures ok { OnOk result (self.new ≡ with_declared self.old (insert_key same_declaration self.old.declared declaration)) }
        ensures err { OnErr result (self.new ≡ self.old) }
    {
        Ok(self.declared.insert(declaration)?)
    }

    /// Enters a module, in which no name has a meaning yet.
    pub fn enter(&mut self, alloc: Global, own: ModuleId)
        ensures { self.new ≡ entered self.old own }
    {
        self.own = own;
        self.modules = Table::new(alloc);
        self.names = Table::new(alloc);
    }

    /// Adds a name for a module and returns true, or returns false if it names a module already. After `NoMemory` the
    /// environment is unchanged.
    pub fn bring_module(&mut self, name: Name, owner: ModuleId) -> Result<bool, NoMemory>
        ensures new { IfOk result (λ is_new. is_new ≡ is_none (lookup (same_name name) self.old.modules)) }
        ensures ok { OnOk result (self.new ≡ with_modules self.old (first_stays same_name self.old.modules name owner)) }
        ensures err { OnErr result (self.new ≡ self.old) }
    {
        self.modules.put(name, owner)
    }

    /// Adds a name for a member of this kind and returns true, or returns false if it names one already. After
    /// `NoMemory` the environment is unchanged.
    pub fn bring(&mut self, name: NameOfKind, member: MemberId) -> Result<bool, NoMemory>
        ensures new { IfOk result (λ is_new. is_new ≡ is_none (lookup (same_name_of_kind name) self.old.names)) }
        ensures ok { OnOk result (self.new ≡ with_names self.old (first_stays same_name_of_kind self.old.names name member)) }
        ensures err { OnErr result (self.new ≡ self.old) }
    {
        if self.names.get(&name).is_some() {
            return Ok(false);
        }
        self.names.push(name, member)?;
        Ok(true)
    }

    /// Returns the module in which the names are in scope.
    pub fn own(&self) -> &ModuleId
        ensures { result.now ≡ self.now.own }
    {
        &self.own
    }

    /// Returns the value of an address.
    pub fn address(&self, address: &Address) -> Option<u128>
        ensures { result ≡ address_meaning self.now address.now }
    {
        match address {
            Address::Number(number) => Some(number.literal.value),
            Address::Name(name) => self.addresses.get(&name.text),
        }
    }

    /// Returns the module with this address and name, declared or not.
    pub fn module_named(&self, alloc: Global, name: &ModuleName) -> Result<ModuleId, NameFault>
        ensures { IsMeaning result (module_meaning self.now name.now) }
    {
        match self.address(&name.address) {
            Some(address) => Ok(ModuleId {
                address,
                name: name.name.text.try_clone(alloc)?,
            }),
            None => Err(NameFault::Unknown),
        }
    }

    /// Returns the module that a word before `::` names.
    fn module_called(&self, alloc: Global, word: &Name) -> Result<ModuleId, NameFault>
        ensures { IsMeaning result (prefix_meaning self.now word.now) }
    {
        if let Some(owner) = self.modules.get(word) {
            return Ok(owner.try_clone(alloc)?);
        }
        if word.as_slice() == b"Self".as_slice() {
            return Ok(self.own.try_clone(alloc)?);
        }
        Err(NameFault::Unknown)
    }

    /// Decides whether the declaration exists.
    pub fn is_declared(&self, declaration: &Declaration) -> bool
        ensures { result ≡ list_any (same_declaration declaration.now) self.now.declared }
    {
        self.declared.contains(declaration)
    }

    /// Returns the member of this name, if the module declares one of this kind.
    #[tactic(auto, using(crate::proofs::DeclaredLaws::not_declared))]
    pub fn declared_member(
        &self,
        alloc: Global,
        kind: MemberKind,
        owner: ModuleId,
        name: &Name,
    ) -> Result<MemberId, NameFault>
        ensures { IsMeaning result (declared_meaning self.now kind owner name.now) }
    {
        let member = MemberId {
            owner,
            name: name.try_clone(alloc)?,
        };
        let declaration = Declaration { kind, member };
        if !self.is_declared(&declaration) {
            return Err(NameFault::Unknown);
        }
        Ok(declaration.member)
    }

    /// Returns the member that a single name means.
    fn member_called(
        &self,
        alloc: Global,
        kind: MemberKind,
        name: &Name,
    ) -> Result<MemberId, NameFault>
        ensures { IsMeaning result (lookup (same_name_of_kind (record { kind = kind; name = name.now })) self.now.names) }
    {
        let name = NameOfKind {
            kind,
            name: name.try_clone(alloc)?,
        };
        match self.names.get(&name) {
            Some(member) => Ok(member.try_clone(alloc)?),
            None => Err(NameFault::Unknown),
        }
    }

    /// Returns the member of this kind that a path names.
    pub fn member_named(
        &self,
        alloc: Global,
        kind: MemberKind,
        path: &Path,
    ) -> Result<MemberId, NameFault>
        ensures { IsMeaning result (member_meaning self.now kind path.now) }
    {
        match path {
            Path::Name(name) => self.member_called(alloc, kind, &name.text),
            Path::Member(owner, name) => {
                let owner = self.module_called(alloc, &owner.text)?;
                self.declared_member(alloc, kind, owner, &name.text)
            }
            Path::Full(owner, name) => {
                let owner = self.module_named(alloc, owner)?;
                self.declared_member(alloc, kind, owner, &name.text)
            }
        }
    }

    /// Returns the struct that a path names.
    pub fn struct_named(&self, alloc: Global, path: &Path) -> Result<StructId, NameFault>
        ensures { IsMeaning result (struct_meaning self.now path.now) }
    {
        let member = self.member_named(alloc, MemberKind::Struct, path)?;
        Ok(member.into_struct())
    }

    /// Returns the constant that a path names.
    pub fn constant_named(&self, alloc: Global, path: &Path) -> Result<ConstantId, NameFault>
        ensures { IsMeaning result (constant_meaning self.now path.now) }
    {
        let member = self.member_named(alloc, MemberKind::Constant, path)?;
        Ok(member.into_constant())
    }

    /// Returns the schema that a path names.
    pub fn schema_named(&self, alloc: Global, path: &Path) -> Result<SchemaId, NameFault>
        ensures { IsMeaning result (schema_meaning self.now path.now) }
    {
        let member = self.member_named(alloc, MemberKind::Schema, path)?;
        Ok(member.into_schema())
    }

    /// Returns the callee that a path names in code.
    pub fn callee_named(&self, alloc: Global, path: &Path) -> Result<Callee, NameFault>
        ensures { IsMeaning result (callee_meaning self.now path.now) }
    {
        match self.member_named(alloc, MemberKind::Function, path) {
            Ok(member) => Ok(builtin_function(member)),
            Err(NameFault::Unknown) => storage_callee(path),
            Err(NameFault::NoMemory) => Err(NameFault::NoMemory),
        }
    }

    /// Returns the callee that a path names in a specification.
    pub fn spec_callee_named(&self, alloc: Global, path: &Path) -> Result<SpecCallee, NameFault>
        ensures { IsMeaning result (spec_callee_meaning self.now path.now) }
    {
        match self.member_named(alloc, MemberKind::SpecFunction, path) {
            Ok(member) => Ok(SpecCallee::Function(member.into_function())),
            Err(NameFault::Unknown) => self.builtin_spec_callee(alloc, path),
            Err(NameFault::NoMemory) => Err(NameFault::NoMemory),
        }
    }

    /// Returns the builtin function of specifications that a path names, or the function of Move that they may call.
    fn builtin_spec_callee(&self, alloc: Global, path: &Path) -> Result<SpecCallee, NameFault>
        ensures { IsMeaning result (builtin_spec_meaning self.now path.now) }
    {
        match self.member_named(alloc, MemberKind::Function, path) {
            Ok(member) => match spec_move_function(&member) {
                Some(function) => Ok(SpecCallee::Builtin(function)),
                None => builtin_callee(path),
            },
            Err(NameFault::Unknown) => builtin_callee(path),
            Err(NameFault::NoMemory) => Err(NameFault::NoMemory),
        }
    }
}

/// Returns the storage operation that a path names.
fn storage_callee(path: &Path) -> Result<Callee, NameFault>
    ensures { IsMeaning result (option_map Storage (word_meaning storage_operation path.now)) }
{
    if let Path::Name(name) = path {
        if let Some(operation) = storage_operation(name.text.as_slice()) {
            return Ok(Callee::Storage(operation));
        }
    }
    Err(NameFault::Unknown)
}

/// Returns the builtin function of specifications that a path names.
fn builtin_callee(path: &Path) -> Result<SpecCallee, NameFault>
    ensures { IsMeaning result (option_map Builtin (word_meaning spec_builtin path.now)) }
{
    if let Path::Name(name) = path {
        if let Some(function) = spec_builtin(name.text.as_slice()) {
            return Ok(SpecCallee::Builtin(function));
        }
    }
    Err(NameFault::Unknown)
}
