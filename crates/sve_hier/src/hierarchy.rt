ghost use Rattle.std.specs.Prelude.{◌≡◌, ◌≤◌, ◌<◌, length, find, option_copied, option_map, is_some, map, IfOk};
ghost use Rattle.sve_hier.specs.Instances.{instance_value};
ghost use Rattle.sve_hier.specs.Places.{declaration_at, entry_at, is_instance, is_place, module_at, place_at, places};
ghost use Rattle.sve_hier.specs.Names.{below, down, found, item, last_item, leads, names, own_declaration, resolve, upward, whole};
ghost use Rattle.sve_hier.specs.Uses.{ends_in, has_thing, is_found, leads_from, leads_on};

use crate::bodies::Instance;
use crate::paths::{below, front, is_block, is_module_name, is_own_name, is_thing, outer, root};
use crate::place::{Place, places};
use crate::resolved::Resolved;
use std::alloc::Global;
use std::collections::BTreeMap;
use std::marker::Model;
use sve_bytes::{Name, NoMemory, Path, Step};
use sve_scope::Declared;

/// The instances and the generate blocks of a design by their paths from the root (IEEE 1800-2017, 23.6), made once for all names that
/// are looked up in it. Clauses see the list of what stands at each path.
#[derive(Drop)]
pub struct Hierarchy {
    map: BTreeMap<Path, Place>,
}

impl Model for Hierarchy {
    ghost use Rattle.sve_hier.specs.Places.{Entries, entries_code};

    ghost Value = { Entries };

    ghost coded = { entries_code };

    ghost view = { λ h. h.map.entries };
}

impl Hierarchy {
    /// The hierarchy of these instances. It shares what is found of their bodies, and takes time for each scope of them once, but for
    /// the look-ups.
    ///
    /// # Errors
    /// For want of memory alone.
    pub fn of(alloc: Global, instances: &[Instance]) -> Result<Hierarchy, NoMemory>
        ensures { IfOk result (λ h. entry_at h ≡ place_at (places (map instance_value instances.now))) }
    {
        let map: BTreeMap<Path, Place> = places(alloc, instances)?.into_iter().collect(alloc)?;
        Ok(Hierarchy { map })
    }

    /// What stands at a path.
    fn at(&self, path: &Path) -> Option<&Place>
        ensures { option_copied result ≡ entry_at self.now path.now }
    {
        self.map.get(path)
    }

    /// Whether an instance or a generate block stands at a path.
    fn is_place(&self, path: &Path) -> bool
        ensures { result ≡ is_place (entry_at self.now) path.now }
    {
        self.at(path).is_some()
    }

    /// The name of the module of the instance at a path.
    fn module(&self, path: &Path) -> Option<&Name>
        ensures { option_copied result ≡ module_at (entry_at self.now) path.now }
    {
        match self.at(path) {
            Some(place) => place.module(),
            None => None,
        }
    }

    /// Whether an instance stands at a path.
    fn is_instance(&self, path: &Path) -> bool
        ensures { result ≡ is_instance (entry_at self.now) path.now }
    {
        self.module(path).is_some()
    }

    /// What is declared by a name in the scope of the place at a path.
    fn declaration(&self, path: &Path, name: &Name) -> Option<&Declared>
        ensures { option_map (λ d. d.now) result ≡ declaration_at (entry_at self.now) path.now name.now }
    {
        match self.at(path) {
            Some(place) => place.declaration(name),
            None => None,
        }
    }

    /// Whether a step is the name of the instance at a path, or of its module.
    fn names(&self, step: &Step, path: &Path) -> bool
        ensures { result ≡ names (entry_at self.now) step.now path.now }
    {
        match self.module(path) {
            Some(module) => is_module_name(step, module) || is_own_name(step, path),
            None => false,
        }
    }

    /// The place to which a first step leads from the scope at a path.
    #[tactic(auto, using(crate::proofs::Upward::named_stands))]
    fn place_from(&self, alloc: Global, scope: Path, step: &Step) -> Result<Option<Path>, NoMemory>
        ensures { IfOk result (λ p. p ≡ find (is_place (entry_at self.now)) (leads (entry_at self.now) step.now scope)) }
    {
        let next = below(alloc, &scope, step)?;
        if self.is_place(&next) {
            return Ok(Some(next));
        }
        if self.names(step, &scope) {
            return Ok(Some(scope));
        }
        Ok(None)
    }

    /// The place to which a first step leads, sought from the beginning of a path that has so many steps. Blocks are searched there
    /// where it is said, and up to the next instance.
    fn found(
        &self,
        alloc: Global,
        from: &Path,
        count: usize,
        own: bool,
        step: &Step,
    ) -> Result<Option<Path>, NoMemory>
        requires { count ≤ length from.now.steps }
        ensures { IfOk result (λ p. p ≡ found (entry_at self.now) from.now count own step.now) }
    {
        if count == 0 {
            return Ok(None);
        }
        let scope = front(alloc, from, count)?;
        let is_instance = self.is_instance(&scope);
        if !is_instance && !own {
            return self.found(alloc, from, count - 1, false, step);
        }
        match self.place_from(alloc, scope, step)? {
            Some(place) => Ok(Some(place)),
            None => self.found(alloc, from, count - 1, !is_instance, step),
        }
    }

    /// What is declared by a step in the scope at a path, and is no generate block.
    fn item(&self, path: &Path, step: &Step) -> Option<&Declared>
        ensures { option_map (λ d. d.now) result ≡ item (entry_at self.now) path.now step.now }
    {
        if step.index.is_some() {
            return None;
        }
        let declared = self.declaration(path, &step.name)?;
        if is_block(&declared.what) {
            None
        } else {
            Some(declared)
        }
    }

    /// The declaration of what stands at a path, in the scope around it.
    fn own_declaration(&self, alloc: Global, path: &Path) -> Result<Option<&Declared>, NoMemory>
        ensures { IfOk result (λ d. option_map (λ r. r.now) d ≡ own_declaration (entry_at self.now) path.now) }
    {
        match path.steps.items().last() {
            Some(last) => {
                let outer = outer(alloc, path)?;
                Ok(self.declaration(&outer, &last.name))
            }
            None => Ok(None),
        }
    }

    /// The top at a path.
    fn top(&self, path: &Path) -> Result<Option<Resolved>, NoMemory>
        ensures { IfOk result (λ r. r ≡ option_map Resolved.Top (module_at (entry_at self.now) path.now)) }
    {
        match self.module(path) {
            Some(module) => Ok(Some(Resolved::Top(module.copy()?))),
            None => Ok(None),
        }
    }

    /// What is found at the place at a path.
    fn whole(&self, alloc: Global, path: Path) -> Result<Option<Resolved>, NoMemory>
        ensures { IfOk result (λ r. r ≡ whole (entry_at self.now) path) }
    {
        if path.steps.items().len() == 1 {
            return self.top(&path);
        }
        let declared = self.own_declaration(alloc, &path)?;
        declared_at(alloc, path, declared)
    }

    /// What the last step leads to from the scope at a path, where it leads to no place.
    fn last_item(
        &self,
        alloc: Global,
        path: Path,
        step: &Step,
        rest: &[Step],
    ) -> Result<Option<Resolved>, NoMemory>
        ensures { IfOk result (λ r. r ≡ last_item (entry_at self.now) path step.now rest.now) }
    {
        if !rest.is_empty() {
            return Ok(None);
        }
        let below = below(alloc, &path, step)?;
        declared_at(alloc, below, self.item(&path, step))
    }

    /// What some steps lead to from a place.
    fn down(&self, alloc: Global, path: Path, steps: &[Step]) -> Result<Option<Resolved>, NoMemory>
        ensures { IfOk result (λ r. r ≡ down (entry_at self.now) steps.now path) }
    {
        match steps.split_first() {
            None => self.whole(alloc, path),
            Some((step, rest)) => {
                let next = below(alloc, &path, step)?;
                if self.is_place(&next) {
                    self.down(alloc, next, rest)
                } else {
                    self.last_item(alloc, path, step, rest)
                }
            }
        }
    }

    /// What the steps of a name lead to whose first is sought from the place at a path upward.
    fn upward(
        &self,
        alloc: Global,
        from: &Path,
        steps: &[Step],
    ) -> Result<Option<Resolved>, NoMemory>
        ensures { IfOk result (λ r. r ≡ upward (entry_at self.now) from.now steps.now) }
    {
        let Some((step, rest)) = steps.split_first() else {
            return Ok(None);
        };
        match self.found(alloc, from, from.steps.items().len(), true, step)? {
            Some(place) => self.down(alloc, place, rest),
            None => Ok(None),
        }
    }

    /// What a hierarchical name means that is used in the scope of an instance or of a generate block, which is given by its path from
    /// the root (IEEE 1800-2017, 23.6 and 23.8). `rooted` says that `$root` stands in front of the name.
    ///
    /// The first step is sought in that scope and in those around it up to the instance, then in the outermost scope of the parent, and
    /// so up; behind the scopes of each instance the name of its module and its own are tried. The first that is found decides. Each
    /// further step leads to an instance or a generate block; the last may lead to something else that is declared. It is none where
    /// nothing is found, or no place stands at `from`.
    ///
    /// # Errors
    /// For want of memory alone.
    pub fn resolve(
        &self,
        alloc: Global,
        from: &Path,
        rooted: bool,
        name: &Path,
    ) -> Result<Option<Resolved>, NoMemory>
        ensures { IfOk result (λ r. r ≡ resolve (entry_at self.now) from.now rooted name.now) }
    {
        let steps = name.steps.items();
        if rooted {
            self.down(alloc, root(alloc), steps)
        } else if self.is_place(from) {
            self.upward(alloc, from, steps)
        } else {
            Ok(None)
        }
    }

    /// Whether something that is no scope is declared by a step in the scope at a path.
    fn has_thing(&self, path: &Path, step: &Step) -> bool
        ensures { result ≡ has_thing (entry_at self.now) path.now step.now }
    {
        match self.declaration(path, &step.name) {
            Some(declared) => is_thing(&declared.what),
            None => false,
        }
    }

    /// Whether a step is found in the scope at a path, where it leads to no place.
    fn ends_in(&self, path: &Path, step: &Step, rest: &[Step]) -> bool
        ensures { result ≡ ends_in (entry_at self.now) path.now step.now rest.now }
    {
        if rest.is_empty() {
            return self.has_thing(path, step) || self.item(path, step).is_some();
        }
        self.has_thing(path, step)
    }

    /// Whether some steps lead on from a place.
    fn leads_on(&self, alloc: Global, path: Path, steps: &[Step]) -> Result<bool, NoMemory>
        ensures { IfOk result (λ b. b ≡ leads_on (entry_at self.now) steps.now path) }
    {
        match steps.split_first() {
            None => Ok(true),
            Some((step, rest)) => {
                let next = below(alloc, &path, step)?;
                if self.is_place(&next) {
                    self.leads_on(alloc, next, rest)
                } else {
                    Ok(self.ends_in(&path, step, rest))
                }
            }
        }
    }

    /// Whether steps are found whose first is sought from the place at a path upward.
    fn leads_from(&self, alloc: Global, from: &Path, steps: &[Step]) -> Result<bool, NoMemory>
        ensures { IfOk result (λ b. b ≡ leads_from (entry_at self.now) from.now steps.now) }
    {
        let Some((step, rest)) = steps.split_first() else {
            return Ok(false);
        };
        match self.found(alloc, from, from.steps.items().len(), true, step)? {
            Some(place) => self.leads_on(alloc, place, rest),
            None => Ok(false),
        }
    }

    /// Whether a hierarchical name is found that an expression uses in the scope of an instance or of a generate block, which is given by its
    /// path from the root (IEEE 1800-2017, 23.6 and 23.8). Its first step is sought as [`resolve`](Hierarchy::resolve) does. The others lead
    /// on from there to instances and generate blocks, and perhaps to something else that is declared; what stands behind that is selected of
    /// it. It is not found where no place stands at `from`.
    ///
    /// # Errors
    /// For want of memory alone.
    pub fn is_found(&self, alloc: Global, from: &Path, name: &Path) -> Result<bool, NoMemory>
        ensures { IfOk result (λ b. b ≡ is_found (entry_at self.now) from.now name.now) }
    {
        if !self.is_place(from) {
            return Ok(false);
        }
        self.leads_from(alloc, from, name.steps.items())
    }
}

/// A declaration, where there is one, with the path of what it declares.
fn declared_at(
    alloc: Global,
    path: Path,
    declared: Option<&Declared>,
) -> Result<Option<Resolved>, NoMemory>
    ensures { IfOk result (λ r. r ≡ option_map (Resolved.Declared path) (option_map (λ d. d.now) declared.entry)) }
{
    match declared {
        Some(declared) => Ok(Some(Resolved::Declared {
            path,
            declared: declared.copy(alloc)?,
        })),
        None => Ok(None),
    }
}
