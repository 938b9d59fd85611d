ghost use Rattle.std.specs.Prelude.{◌≡◌, ◌==◌, ◌∷◌, ◌||◌, [], Some, None, map, IfOk, OnOk};
ghost use Rattle.std.specs.List.Sorted.{IsNonDecreasing, IsPermutation};
ghost use Rattle.case_table.specs.Lists.{with_first};
ghost use Rattle.scope_tables.specs.Visible.{lists};
ghost use Rattle.scope_tables.specs.inside.Owning.{same_text};
ghost use Rattle.scope_tables.specs.inside.Reaching.{has_it, brings_it, is_listed, names_of, bringing_of};
ghost use Rattle.scope_tables.specs.inside.Reaching.{Tells, Grows, names_it, froms, AreTold, TakesIn, AreReaches};

use crate::brought::{Bringing, Names};
use crate::entity::Entity;
use case_table::Text;
use indexmap::IndexSet;
use mdl_syntax::Ident;
use std::alloc::{AllocError, Global};

/// What a module sees of one module, itself or one that it brings from.
#[derive(Drop)]
pub struct Reach {
    pub module: usize,
    /// It is the module itself.
    pub own: bool,
    /// All names are brought; and all by `using`.
    whole: bool,
    whole_used: bool,
    /// The names that are listed; and those that a `using` lists.
    listed: IndexSet<Text>,
    used: IndexSet<Text>,
}

impl Reach {
    fn new(alloc: Global, module: usize, own: bool) -> Reach
        ensures of { result.«module» ≡ «module» }
        ensures own { result.own ≡ own }
        ensures tells { Tells [] result }
    {
        Reach {
            module,
            own,
            whole: false,
            whole_used: false,
            listed: IndexSet::new(alloc),
            used: IndexSet::new(alloc),
        }
    }

    fn take_in(&mut self, bringing: &Bringing) -> Result<(), AllocError>
        ensures { OnOk result
            (Grows self.old (lists (names_of bringing.now.names)) bringing.now.used self.new) }
    {
        match bringing.names {
            Names::All => {
                self.take_all(bringing.used);
                Ok(())
            }
            Names::One(name) => self.take_name(name, bringing.used),
            Names::Listed(names) => self.take_names(names, bringing.used),
        }
    }

    fn take_all(&mut self, used: bool)
        ensures { Grows self.old (lists None) used self.new }
    {
        self.whole = true;
        self.whole_used = either(self.whole_used, used);
    }

    fn take_names(&mut self, names: &[Ident], used: bool) -> Result<(), AllocError>
        ensures { OnOk result (Grows self.old (lists (Some names.now)) used self.new) }
    {
        for name in names {
            self.take_name(name, used)?;
        }
        Ok(())
    }

    fn take_name(&mut self, name: &Ident, used: bool) -> Result<(), AllocError>
        ensures { OnOk result (Grows self.old (names_it name.now) used self.new) }
    {
        note(&mut self.listed, name)?;
        if used {
            note(&mut self.used, name)?;
            return Ok(());
        }
        Ok(())
    }

    /// Whether the module brings an entity of this one, by `using` or in any way, or has it. With `all` everything
    /// is taken for exported.
    pub fn has(&self, entity: &Entity, used: bool, all: bool) -> bool
        ensures { result ≡ has_it self.now entity.now used all }
    {
        self.own || ((all || entity.exported) && self.brings(entity, used))
    }

    fn brings(&self, entity: &Entity, used: bool) -> bool
        ensures { result ≡ brings_it self.now entity.now used }
    {
        if used {
            self.whole_used || lists(&self.used, entity)
        } else {
            self.whole || lists(&self.listed, entity)
        }
    }
}

fn either(one: bool, other: bool) -> bool
    ensures { result ≡ (one || other) }
{
    one || other
}

fn note(names: &mut IndexSet<Text>, name: &Ident) -> Result<(), AllocError>
    ensures { OnOk result (names.new.keys ≡ with_first same_text names.old.keys name.now.text) }
{
    let text = name.text.clone()?;
    names.insert(text)?;
    Ok(())
}

fn lists(names: &IndexSet<Text>, entity: &Entity) -> bool
    ensures { result ≡ is_listed names.now.keys entity.now }
{
    names.contains(&entity.name) || names.contains(&entity.group)
}

/// What a module sees, in order of modules.
pub fn reaches(alloc: Global, own: usize, brought: &[Bringing]) -> Result<Vec<Reach>, AllocError>
    ensures { IfOk result (λ all. AreReaches own (map bringing_of brought.now) all.items) }
{
    let modules = modules_seen(alloc, own, brought)?;
    let mut places = IndexSet::new(alloc);
    let mut all = Vec::new(alloc);
    for module in &modules {
        see(alloc, own, *module, &mut places, &mut all)?;
    }
    tell_all(&places, &mut all, brought)?;
    Ok(all)
}

/// The modules that a module sees, in order, each as often as it is brought from.
fn modules_seen(alloc: Global, own: usize, brought: &[Bringing]) -> Result<Vec<usize>, AllocError>
    ensures rise { IfOk result (λ modules. IsNonDecreasing modules.items) }
    ensures are { IfOk result
        (λ modules. IsPermutation (own ∷ froms (map bringing_of brought.now)) modules.items) }
{
    let mut modules = Vec::new(alloc);
    modules.push(own)?;
    for bringing in brought {
        modules.push(bringing.from)?;
    }
    modules.sort_unstable();
    Ok(modules)
}

/// Adds what is seen of a module, nothing so far, unless it is there.
fn see(
    alloc: Global,
    own: usize,
    module: usize,
    places: &mut IndexSet<usize>,
    all: &mut Vec<Reach>,
) -> Result<(), AllocError>
    ensures places { OnOk result (places.new.keys ≡ with_first ◌==◌ places.old.keys «module») }
    ensures told { OnOk result (AreTold own places.old.keys [] all.old.items
        → AreTold own places.new.keys [] all.new.items) }
{
    if places.insert(module)? {
        all.push(Reach::new(alloc, module, module == own))?;
        return Ok(());
    }
    Ok(())
}

fn tell_all(
    places: &IndexSet<usize>,
    all: &mut Vec<Reach>,
    brought: &[Bringing],
) -> Result<(), AllocError>
    ensures { OnOk result (TakesIn places.now.keys (map bringing_of brought.now) all.old.items all.new.items) }
{
    for bringing in brought {
        tell(places, all, bringing)?;
    }
    Ok(())
}

/// Takes in what a module brings, at the place of the module that it is brought from.
fn tell(
    places: &IndexSet<usize>,
    all: &mut Vec<Reach>,
    bringing: &Bringing,
) -> Result<(), AllocError>
    ensures { OnOk result (TakesIn places.now.keys (bringing_of bringing.now ∷ []) all.old.items all.new.items) }
{
    let Some(place) = places.get_index_of(&bringing.from) else {
        return Ok(());
    };
    let Some(reach) = all.get_mut(place) else {
        return Ok(());
    };
    reach.take_in(bringing)?;
    Ok(())
}
