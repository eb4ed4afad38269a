//! A host: its modules, and the policy that is loaded from them.

ghost use Rattle.std.specs.Prelude.{◌≡◌, ◌<◌, ℕ, List, [], map, None, IfErr, IfOk, IfNone, IfSome, ◌≤◌};
ghost use Rattle.cil_modset.specs.Bundle.{bundle};
ghost use Rattle.cil_modset.specs.Changes.{IsImported, IsInstalled};
ghost use Rattle.cil_host.specs.Checks.{Checks};
ghost use Rattle.cil_host.specs.Machine.{OfLoaded, Queries, State, TellsOptionals, TellsWhy};
ghost use Rattle.cil_host.specs.Permissions.{AreNamesOf, IsInOrder, IsPermissionOf};
ghost use Rattle.cil_host.specs.Listed.{line_of};
ghost use Rattle.cil_host.specs.Refusal.{IsPolicyOf, Loads};
ghost use Rattle.cil_table_bytes.specs.tables.CompileRefusal.{CompileFails};
ghost use Rattle.cil_host.specs.Sets.{Sets};

use crate::fault::{HostError, QueryFault};
use crate::lines::{copied_optionals, copied_reasons};
use crate::listing::{ListLine, lines_of};
use cil_avc::{
    Avc, Decision, Settings, boolean_named, class_named, decide_laws as laws, defaults,
    parse_context, permission_at, permission_named, permissions_of,
};
use cil_base::{Bytes, NoMemory};
use cil_faults::Failure;
use cil_modset::{BundleError, Installed, ModuleSet};
use cil_sexpr::ReadError;
use cil_table_bytes::{Compiled, OptionalLine, WhyLine, compile, measure};
use std::alloc::Global;
use std::hash::BuildHasher;
use std::marker::Model;

/// The result of a load: what the tables of the loaded policy are told by. Hosts with the same modules tell the same.
#[derive(Clone, Copy, Debug, PartialEq, Eq)]
pub struct Loaded {
    /// How many bytes the tables have.
    pub length: u64,
    /// The SHA-256 digest of these bytes.
    pub digest: [u8; 32],
}

/// A policy, with the modules that it was compiled from.
#[derive(Debug, Drop)]
struct Policy {
    compiled: Compiled,
    modules: ModuleSet,
}

/// What modules compile to, with a copy of them, and what the tables are told by. It holds the tables only while it answers. Errors: the faults of the
/// modules, or out of memory.
fn policy_of(alloc: Global, modules: &ModuleSet) -> Result<(Policy, Loaded), Failure>
    ensures ok { IfOk result (λ x. IsPolicyOf modules.now x.0 x.1) }
    ensures err { IfErr result (CompileFails modules.now) }
{
    let compiled = compile(alloc, modules)?;
    let told = measure(alloc, &compiled.tables)?;
    let modules = modules.try_clone(alloc)?;
    let length = told.length;
    let digest = told.digest;
    Ok((Policy { compiled, modules }, Loaded { length, digest }))
}

/// A host. In contracts it is its modules, and the modules of its last accepted load with the reasons why optionals of theirs are
/// left out, and the names of the booleans of theirs that are on. Its cache of decisions is not seen: whatever it holds, the answers are
/// those of the loaded policy.
#[derive(Debug, Drop)]
pub struct Host<S: BuildHasher + Drop> {
    modules: ModuleSet,
    policy: Option<Policy>,
    // Which booleans of the policy are on.
    settings: Settings,
    // What was decided by the policy, with the booleans as they are.
    cache: Avc<S>,
}

impl<S: BuildHasher + Drop> Model for Host<S> {
    ghost use Rattle.std.specs.Option.{option_map};
    ghost use Rattle.cil_host.specs.Machine.{IsSound, State, accepted_of};

    ghost Value = { State };

    ghost view = { λ a. record { modules = a.modules; loaded = option_map (accepted_of a.settings) a.policy } };

    ghost invariant = { λ a. IsSound a.policy a.settings a.cache.entries };
}

impl<S: BuildHasher + Drop> Host<S> {
    /// A host without modules and without a policy. `capacity`, from 1 to 65,536, is how many decisions its cache may hold; `hasher`
    /// is that of the cache. Error: out of memory.
    pub fn new(alloc: Global, capacity: usize, hasher: S) -> Result<Host<S>, NoMemory>
        requires least { 1 ≤ capacity }
        requires most { capacity ≤ 65536 }
        ensures { IfOk result (λ host. host ≡ record { modules = []; loaded = None }) }
    {
        let cache = Avc::new(alloc, capacity, hasher)?;
        Ok(Host {
            modules: ModuleSet::new(alloc),
            policy: None,
            settings: Settings::all_off(),
            cache,
        })
    }

    /// Makes the host as it was at first: without modules, without a policy, and with an empty cache. It takes no memory; `alloc` is where modules that are
    /// installed afterwards are kept.
    pub fn restart(&mut self, alloc: Global)
        ensures { self.new ≡ record { modules = []; loaded = None } }
    {
        self.modules = ModuleSet::new(alloc);
        self.policy = None;
        self.settings = Settings::all_off();
        self.cache.flush();
    }

    /// Installs a module, as `ModuleSet::install` does, and returns whether it was new. The loaded policy does not change.
    ///
    /// Errors: the first fault of the text, or out of memory. If the call fails, the host is unchanged.
    pub fn install(&mut self, alloc: Global, text: &[u8]) -> Result<Installed, ReadError>
        ensures modules { IsInstalled self.old.modules text.now result self.new.modules }
        ensures loaded { self.new.loaded ≡ self.old.loaded }
    {
        self.modules.install(alloc, text)
    }

    /// Adds the modules of a bundle, as `ModuleSet::import` does, and returns how many were new. The loaded policy does not
    /// change.
    ///
    /// Errors: the first fault of bytes that are not a bundle, or out of memory. If the call fails, the host is unchanged.
    pub fn import(&mut self, alloc: Global, bytes: &[u8]) -> Result<u64, BundleError>
        ensures modules { IsImported self.old.modules bytes.now result self.new.modules }
        ensures loaded { self.new.loaded ≡ self.old.loaded }
    {
        self.modules.import(alloc, bytes)
    }

    /// The bundle of the modules, which `import` reads on another host. Error: out of memory.
    pub fn export(&self, alloc: Global) -> Result<Vec<u8>, NoMemory>
        ensures { IfOk result (λ bytes. bytes.items ≡ bundle self.now.modules) }
    {
        self.modules.export(alloc)
    }

    /// A line for each module, in byte order of the texts. Error: out of memory.
    pub fn list(&self, alloc: Global) -> Result<Vec<ListLine>, NoMemory>
        ensures { IfOk result (λ lines. lines.items ≡ map line_of self.now.modules) }
    {
        lines_of(alloc, &self.modules)
    }

    /// Compiles the modules and loads their policy, by which queries are answered from then on. Each boolean has its default then, and the cache is empty.
    /// The answer is the length and the digest of the bytes of the policy's tables. (CIL Reference Guide, "boolean".)
    ///
    /// Errors: the faults of the modules (all faults of the first step that has any), or out of memory. If the call fails,
    /// the host is unchanged.
    pub fn load(&mut self, alloc: Global) -> Result<Loaded, Failure>
        ensures { Loads self.old self.new result }
    {
        let (policy, loaded) = policy_of(alloc, &self.modules)?;
        self.settings = defaults(&policy.compiled.tables);
        self.cache.flush();
        self.policy = Some(policy);
        Ok(loaded)
    }

    /// A line for each optional of the loaded policy, with whether it is in force: by module, place, namespace and label.
    ///
    /// Errors: no policy is loaded, out of memory.
    pub fn optionals(&self, alloc: Global) -> Result<Vec<OptionalLine>, HostError>
        ensures { TellsOptionals self.now result }
    {
        let Some(loaded) = &self.policy else {
            return Err(HostError::Query(QueryFault::NoPolicy));
        };
        let lines = copied_optionals(alloc, loaded.compiled.optionals.as_slice())?;
        Ok(lines)
    }

    /// A line for each optional of the loaded policy that is left out, with the reason why. In this order they can be removed,
    /// one after the other.
    ///
    /// Errors: no policy is loaded, out of memory.
    pub fn why(&self, alloc: Global) -> Result<Vec<WhyLine>, HostError>
        ensures { TellsWhy self.now result }
    {
        let Some(policy) = &self.policy else {
            return Err(HostError::Query(QueryFault::NoPolicy));
        };
        let lines = copied_reasons(alloc, policy.compiled.reasons.as_slice())?;
        Ok(lines)
    }

    /// Turns the boolean of a qualified name on or off, until it is set again or modules are loaded. (The SELinux Notebook,
    /// "Booleans".) It empties the cache. The call allocates no memory.
    ///
    /// Errors, the first that applies: no policy is loaded, there is no boolean of this name. If the call fails, the host is unchanged.
    pub fn set_boolean(&mut self, name: &[u8], value: bool) -> Result<(), QueryFault>
        ensures { Sets self.old self.new name.now value result }
    {
        laws::compiled_tables_answer();
        let Some(policy) = &self.policy else {
            return Err(QueryFault::NoPolicy);
        };
        let Some(number) = boolean_named(&policy.compiled.tables, name) else {
            return Err(QueryFault::NoBoolean);
        };
        self.settings.set(number, value);
        self.cache.flush();
        Ok(())
    }

    /// What a source may do to a target of a class, by the loaded policy and the settings of its booleans. A context is
    /// `user:role:type`, or `user:role:type:level` where contexts have levels, a class is given by its name. The decision is kept in the cache, or taken
    /// from there; where memory is lacking it is not kept, and it is answered all the same.
    ///
    /// Errors, the first that applies: no policy is loaded, the source is not a valid context, the target is not a valid
    /// context, there is no class of this name. The host is unchanged.
    pub fn query(
        &mut self,
        source: &[u8],
        target: &[u8],
        class: &[u8],
    ) -> Result<Decision, QueryFault>
        ensures answer { Queries self.old source.now target.now class.now result }
        ensures stays { self.new ≡ self.old }
    {
        laws::compiled_tables_answer();
        let Some(policy) = &self.policy else {
            return Err(QueryFault::NoPolicy);
        };
        let Some(from) = parse_context(&policy.compiled.tables, source) else {
            return Err(QueryFault::BadSource);
        };
        let Some(onto) = parse_context(&policy.compiled.tables, target) else {
            return Err(QueryFault::BadTarget);
        };
        let Some(class) = class_named(&policy.compiled.tables, class) else {
            return Err(QueryFault::NoClass);
        };
        let tables = &policy.compiled.tables;
        let settings = &self.settings;
        Ok(self.cache.lookup(tables, settings, &from, &onto, class))
    }

    /// The name of a permission of a class of the loaded policy, by its bit in the masks of decisions: its position among the
    /// permissions of the class in byte order. None if no policy is loaded, if there is no class of this name, or if the class
    /// has no permission at this bit.
    pub fn permission(&self, class: &[u8], bit: u32) -> Option<&[u8]>
        ensures found { IfSome result (λ name. OfLoaded self.now (IsPermissionOf class.now bit name.now)) }
        ensures order { IfSome result (λ name. IsInOrder self.now class.now bit name.now) }
        ensures none { IfNone result ((name : List ℕ) → OfLoaded self.now (IsPermissionOf class.now bit name) → ⊥) }
    {
        let Some(policy) = &self.policy else {
            return None;
        };
        let Some(class) = class_named(&policy.compiled.tables, class) else {
            return None;
        };
        permission_at(&policy.compiled.tables, class, bit)
    }

    /// The names of the permissions of a class of the loaded policy in byte order, so that each stands at its bit in the masks of decisions.
    /// None if no policy is loaded, or there is no class of this name. It takes no memory, and looks up the class once for all of them.
    pub fn permissions(&self, class: &[u8]) -> &[Bytes]
        ensures { AreNamesOf self.now class.now result.now }
    {
        let Some(policy) = &self.policy else {
            return &[];
        };
        let Some(class) = class_named(&policy.compiled.tables, class) else {
            return &[];
        };
        permissions_of(&policy.compiled.tables, class)
    }

    /// Whether a permission is allowed, by the decision of `query`. It takes no memory.
    ///
    /// Errors: those of `query`, and then that the class has no such permission.
    pub fn check(
        &mut self,
        source: &[u8],
        target: &[u8],
        class: &[u8],
        permission: &[u8],
    ) -> Result<bool, QueryFault>
        ensures answer { Checks self.old source.now target.now class.now permission.now result }
        ensures stays { self.new ≡ self.old }
    {
        match self.query(source, target, class) {
            Ok(decision) => match self.bit_of(class, permission) {
                Some(bit) => Ok((decision.allowed >> bit) & 1 == 1),
                None => Err(QueryFault::NoPermission),
            },
            Err(fault) => Err(fault),
        }
    }

    /// The bit of a permission of a class, if the class has it.
    fn bit_of(&self, class: &[u8], permission: &[u8]) -> Option<u32>
        ensures within { IfSome result (λ bit. bit < 32) }
        ensures found { IfSome result (λ bit. OfLoaded self.now (IsPermissionOf class.now bit permission.now)) }
        ensures none { IfNone result ((bit : ℕ) → OfLoaded self.now (IsPermissionOf class.now bit permission.now) → ⊥) }
    {
        let Some(policy) = &self.policy else {
            return None;
        };
        let Some(class) = class_named(&policy.compiled.tables, class) else {
            return None;
        };
        permission_named(&policy.compiled.tables, class, permission)
    }
}
