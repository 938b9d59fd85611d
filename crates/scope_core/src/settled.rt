ghost use Rattle.std.specs.Prelude.{◌≡◌, ◌<◌, ◌||◌, [], None, Some, List, map, length, replicate, slice_index_or};
ghost use Rattle.std.specs.Prelude.{slice_get, IfOk, OnOk};
ghost use Rattle.std.specs.List.{list_any};
ghost use Rattle.type_rules.specs.Types.{plain};
ghost use Rattle.scope_tables.specs.Types.{is_callable, is_deferred, has_deferred};
ghost use Rattle.scope_core.specs.Standing.{is_prototype, is_definition};
ghost use Rattle.scope_tables.specs.inside.Pieces.{takes_of};
ghost use Rattle.scope_core.specs.inside.Settling.{taken_at, same_number, same_place, defines_at, stands_alone};
ghost use Rattle.scope_core.specs.inside.Settling.{takes_at, next_of, defers, is_base_at, number_on, base_number};
ghost use Rattle.scope_core.specs.inside.Walking.{Begins, Follows, Walks};
ghost use Rattle.scope_core.specs.inside.Hiding.{key_of, key_at, asked, has_key, with_key, AreDefined};
ghost use Rattle.scope_core.specs.inside.Hiding.{AreHidden, IsHiding};
ghost use Rattle.scope_core.specs.inside.Rounds.{Describes, Stays, SettlesBy, SettlesWritten, SettlesBased};
ghost use Rattle.scope_core.specs.inside.Rounds.{SettlesVariant};
ghost use Rattle.scope_core.specs.inside.Rounds.{Closes, SettlesListed, SettlesVariants, SettlesModule};
ghost use Rattle.scope_core.specs.inside.Rounds.{SettlesModules, AreSettled};
ghost use Rattle.scope_tables.specs.declared.entity.Entity.{Entity};
ghost use Rattle.scope_tables.specs.Entities.{Declared};
ghost use Rattle.scope_tables.specs.Visible.{World};
ghost use Rattle.scope_tables.specs.inside.Order.{IsOrder};
ghost use Rattle.scope_tables.specs.inside.Reaching.{froms};
ghost use Rattle.scope_core.specs.inside.Holding.{Hold};
ghost use Rattle.scope_core.specs.inside.Scoping.{NoneHidden};
ghost use Rattle.scope_core.specs.inside.Sums.{AreSums, under};
ghost use Rattle.scope_core.specs.inside.Based.{AreBases};

use crate::bases::{Bases, bases_of, likely};
use crate::sums;
use crate::sums::{NameKinds, sums};
use case_table::{Seq, Text};
use indexmap::IndexSet;
use mdl_syntax::{Param, Size};
use module_set::ModuleName;
use scope_tables::declared::{Takes, Written};
use scope_tables::entity::{Entity, Sort};
use scope_tables::found::{View, found};
use scope_tables::tables::{Place, Table, entity_at, unset_flags};
use scope_tables::types::types_of;
use std::alloc::{AllocError, Global};
use type_rules::{Shape, Ty};

/// What entities take, as far as it is known, and the tables, in which is noted which of them are hidden.
#[derive(Drop)]
pub struct Settled {
    pub tables: Vec<Table>,
    lists: IndexSet<Seq<Ty>>,
    /// For each module, and each of its entities, the index in `lists` of what it takes.
    taken: Vec<Vec<Option<usize>>>,
    /// For each module, and each of its names, what stands under it, once all is settled.
    sums: Vec<Vec<NameKinds>>,
}

/// What there is to settle.
#[derive(Clone, Copy)]
pub struct Scene<'a> {
    pub names: &'a [ModuleName],
    /// What is written in the modules, and behind them in the prelude.
    pub written: &'a [Written<'a>],
}

/// Settles all modules, in an order in which each stands behind those that it imports.
pub fn settle_all(
    alloc: Global,
    scene: Scene,
    tables: Vec<Table>,
    order: &[usize],
) -> Result<Settled, AllocError>
    ensures { (world : World) (pieces : List (List Declared)) → Describes world pieces scene.entry
        → Hold world tables.items pieces → NoneHidden tables.items
        → length world.brings ≡ length world.names → IsOrder (map froms world.brings) order.now
        → IfOk result (AreSettled world pieces) }
{
    let mut settled = Settled {
        tables,
        lists: IndexSet::new(alloc),
        taken: unknown(alloc, scene.written)?,
        sums: Vec::new(alloc),
    };
    settled.settle_modules(alloc, scene, order)?;
    settled.sums = sums(alloc, &settled.tables)?;
    Ok(settled)
}

/// Nothing is known of any entity.
fn unknown(alloc: Global, written: &[Written]) -> Result<Vec<Vec<Option<usize>>>, AllocError>
    ensures { IfOk result (λ taken. map (λ row. row.items) taken.items
        ≡ map (λ one. replicate (length one.takes.items) None) written.now) }
{
    let mut taken = Vec::new(alloc);
    for one in written {
        let row = vec![in alloc; None; one.takes.len()]?;
        taken.push(row)?;
    }
    Ok(taken)
}

impl Settled {
    /// The number of what an entity takes. Entities take the same exactly where the numbers are equal.
    pub fn taken(&self, place: Place) -> Option<usize>
        ensures { result ≡ taken_at self.now.taken.items place }
    {
        match self.taken.get(place.module) {
            Some(taken) => taken_at(taken, place.index),
            None => None,
        }
    }

    /// What stands under a name of a module.
    pub fn under(&self, module: usize, name: &Text) -> NameKinds
        ensures { AreSums self.now.tables.items self.now.sums.items
            → result ≡ under self.now.tables.items «module» name.now }
    {
        sums::under(&self.tables, &self.sums, module, name)
    }

    fn view<'a>(&'a self, scene: Scene<'a>) -> View<'a>
        ensures { (result.names.now ≡ scene.entry.names.now) × (result.tables.now ≡ self.now.tables.items) }
    {
        View {
            names: scene.names,
            tables: &self.tables,
        }
    }

    /// Settles the prelude, and then the modules in this order.
    fn settle_modules(
        &mut self,
        alloc: Global,
        scene: Scene,
        order: &[usize],
    ) -> Result<(), AllocError>
        ensures { OnOk result (SettlesModules scene.entry order.now self.old self.new) }
    {
        self.settle_module(alloc, scene, scene.names.len())?;
        for module in order {
            self.settle_module(alloc, scene, *module)?;
        }
        Ok(())
    }

    /// Settles the entities of a module: first what is written in it, then what its variants take, then which of its
    /// prototypes are hidden.
    fn settle_module(
        &mut self,
        alloc: Global,
        scene: Scene,
        module: usize,
    ) -> Result<(), AllocError>
        ensures { OnOk result (SettlesModule scene.entry «module» self.old self.new) }
    {
        if let Some(written) = scene.written.get(module) {
            self.settle_listed(alloc, scene, module, &written.takes)?;
            let bases = bases_of(alloc, self.view(scene), module, &written.takes)?;
            self.settle_variants(alloc, scene, &bases, module, written.takes.len())?;
        }
        self.hide(alloc, module)?;
        Ok(())
    }

    fn settle_listed(
        &mut self,
        alloc: Global,
        scene: Scene,
        module: usize,
        takes: &[Takes],
    ) -> Result<(), AllocError>
        ensures { OnOk result (SettlesListed scene.entry «module» takes.now (length takes.now) self.old self.new) }
    {
        for index in 0..takes.len() {
            self.settle_written(alloc, scene, Place { module, index }, takes[index])?;
        }
        Ok(())
    }

    fn settle_variants(
        &mut self,
        alloc: Global,
        scene: Scene,
        bases: &Bases,
        module: usize,
        count: usize,
    ) -> Result<(), AllocError>
        requires { AreBases scene self.old.tables.items bases.now }
        ensures { OnOk result (SettlesVariants scene.entry «module» count self.old self.new) }
    {
        let mut begun = unset_flags(alloc, count)?;
        for index in 0..count {
            self.settle_variant(alloc, scene, bases, &mut begun, Place { module, index })?;
        }
        Ok(())
    }

    fn settle_written(
        &mut self,
        alloc: Global,
        scene: Scene,
        place: Place,
        takes: Takes,
    ) -> Result<(), AllocError>
        ensures { OnOk result (SettlesWritten scene.entry place takes.entry self.old self.new) }
    {
        match takes {
            Takes::Listed(params) => {
                let types = types_of(alloc, self.view(scene), place.module, params)?;
                self.take(place, types)
            }
            Takes::Known(names) => {
                let types = known_types(alloc, names)?;
                self.take(place, types)
            }
            Takes::Based(_) => Ok(()),
        }
    }

    /// Settles an entity by what it takes, unless it is settled.
    fn take(&mut self, place: Place, types: Vec<Ty>) -> Result<(), AllocError>
        ensures { OnOk result (SettlesBy place types.items self.old self.new) }
    {
        let (number, _) = self.lists.insert_full(Seq::of(types))?;
        self.set_taken(place, number);
        Ok(())
    }

    /// Settles an entity by the number of what it takes, unless it is settled.
    fn set_taken(&mut self, place: Place, number: usize)
        ensures stays { Stays self.old self.new }
        ensures settles { number < length self.old.lists.keys
            → SettlesBy place (slice_index_or self.old.lists.keys number []) self.old self.new }
    {
        if self.taken(place).is_some() {
            return;
        }
        if let Some(taken) = self.taken.get_mut(place.module) {
            if let Some(own) = taken.get_mut(place.index) {
                *own = Some(number);
            }
        }
    }

    /// Settles a variant, and the variants of its module that it leads to by their bases.
    fn settle_variant(
        &mut self,
        alloc: Global,
        scene: Scene,
        bases: &Bases,
        begun: &mut [bool],
        place: Place,
    ) -> Result<(), AllocError>
        requires { AreBases scene self.old.tables.items bases.now }
        ensures { OnOk result (SettlesVariant scene.entry begun.old place self.old begun.new self.new) }
    {
        let mut path = Vec::new(alloc);
        self.walk(alloc, scene, bases, begun, &mut path, place)?;
        'steps: while let Some(variant) = path.pop() {
            self.settle_based(alloc, scene, bases, variant)?;
        }
        Ok(())
    }

    /// Goes from a variant to its base, and on from there, up to what is settled.
    fn walk(
        &mut self,
        alloc: Global,
        scene: Scene,
        bases: &Bases,
        begun: &mut [bool],
        path: &mut Vec<Place>,
        place: Place,
    ) -> Result<(), AllocError>
        requires { AreBases scene self.old.tables.items bases.now }
        ensures { OnOk result (Walks scene.entry begun.old path.old.items (Some place) self.old begun.new path.new.items
            None self.new) }
    {
        let mut next = Some(place);
        'steps: while let Some(current) = next {
            next = self.follow(alloc, scene, bases, begun, path, current)?;
        }
        Ok(())
    }

    /// Goes one step. A variant that is met again takes nothing, and so does one without a base.
    fn follow(
        &mut self,
        alloc: Global,
        scene: Scene,
        bases: &Bases,
        begun: &mut [bool],
        path: &mut Vec<Place>,
        current: Place,
    ) -> Result<Option<Place>, AllocError>
        requires { AreBases scene self.old.tables.items bases.now }
        ensures { IfOk result (λ next. Follows scene.entry begun.old path.old.items current self.old begun.new
            path.new.items next self.new) }
    {
        if self.taken(current).is_some() {
            return Ok(None);
        }
        match self.next_base(alloc, scene, bases, current)? {
            Some(next) => {
                if begin(begun, current.index) {
                    path.push(current)?;
                    return Ok(Some(next));
                }
                self.take(current, Vec::new(alloc))?;
                Ok(None)
            }
            None => {
                self.take(current, Vec::new(alloc))?;
                Ok(None)
            }
        }
    }

    /// The base that a variant may have: of what its name finds the one that isn't a prototype of the module, or else
    /// the only one. None where there are others, or none.
    fn next_base(
        &self,
        alloc: Global,
        scene: Scene,
        bases: &Bases,
        place: Place,
    ) -> Result<Option<Place>, AllocError>
        requires { AreBases scene self.now.tables.items bases.now }
        ensures { IfOk result (λ next. next ≡ next_of scene.entry.names.now self.now.tables.items place.«module»
            (takes_at scene.entry.written.now place)) }
    {
        match takes_at(scene, place) {
            Some(Takes::Based(name)) => {
                if let Some(base) = bases.at(place) {
                    return Ok(base.likely);
                }
                let found = found(alloc, self.view(scene), place.module, &name.form, false)?;
                Ok(likely(&self.tables, place.module, &found))
            }
            _ => Ok(None),
        }
    }

    /// Settles a variant whose base is settled, if it has one.
    fn settle_based(
        &mut self,
        alloc: Global,
        scene: Scene,
        bases: &Bases,
        place: Place,
    ) -> Result<(), AllocError>
        requires { AreBases scene self.old.tables.items bases.now }
        ensures { OnOk result (SettlesBased scene.entry place self.old self.new) }
    {
        match self.base(alloc, scene, bases, place)? {
            Some(number) => {
                self.set_taken(place, number);
                Ok(())
            }
            None => {
                self.take(place, Vec::new(alloc))?;
                Ok(())
            }
        }
    }

    /// What the base of a variant takes, where it is one callable without a parameter of deferred size.
    fn base(
        &self,
        alloc: Global,
        scene: Scene,
        bases: &Bases,
        place: Place,
    ) -> Result<Option<usize>, AllocError>
        requires { AreBases scene self.now.tables.items bases.now }
        ensures { IfOk result (λ number. number ≡ base_number scene.entry.names.now self.now.tables.items
            scene.entry.written.now self.now.taken.items place.«module» (takes_at scene.entry.written.now place)) }
    {
        match takes_at(scene, place) {
            Some(Takes::Based(name)) => {
                if let Some(base) = bases.at(place) {
                    return Ok(self.number_on(scene, &base.found, base.likely));
                }
                let found = found(alloc, self.view(scene), place.module, &name.form, false)?;
                let base = likely(&self.tables, place.module, &found);
                Ok(self.number_on(scene, &found, base))
            }
            _ => Ok(None),
        }
    }

    /// What one of these takes, if it can be a base and stands alone.
    fn number_on(&self, scene: Scene, found: &[Place], base: Option<Place>) -> Option<usize>
        ensures { result ≡ number_on self.now.tables.items scene.entry.written.now self.now.taken.items found.now base }
    {
        match base {
            Some(base) => self.number_of_base(scene, found, base),
            None => None,
        }
    }

    fn number_of_base(&self, scene: Scene, found: &[Place], base: Place) -> Option<usize>
        ensures { result ≡ number_on self.now.tables.items scene.entry.written.now self.now.taken.items found.now
            (Some base) }
    {
        if self.stands_alone(base, found) && is_base(&self.tables, scene, base) {
            self.taken(base)
        } else {
            None
        }
    }

    /// Whether all others of these are prototypes that one of them hides.
    fn stands_alone(&self, base: Place, found: &[Place]) -> bool
        ensures { result ≡ stands_alone self.now.tables.items self.now.taken.items base found.now }
    {
        found.iter().all(|place| self.goes_with(base, *place))
    }

    fn goes_with(&self, base: Place, place: Place) -> bool
        ensures { result
            ≡ (same_place place base || defines_at self.now.tables.items self.now.taken.items base place) }
    {
        is_same_place(place, base) || self.defines(base, place)
    }

    /// Whether a function is the definition of a prototype of the same name and module.
    fn defines(&self, place: Place, prototype: Place) -> bool
        ensures { result ≡ defines_at self.now.tables.items self.now.taken.items place prototype }
    {
        match entity_at(&self.tables, place) {
            Some(entity) => {
                is_definition(entity.sort)
                    && (place.module == prototype.module
                        && is_same_number(self.taken(place), self.taken(prototype)))
            }
            None => false,
        }
    }

    /// Hides the prototypes of a module that stand beside their definitions.
    fn hide(&mut self, alloc: Global, module: usize) -> Result<(), AllocError>
        ensures { OnOk result (Closes «module» self.old self.new) }
    {
        let Some(table) = self.tables.get_mut(module) else {
            return Ok(());
        };
        let Some(taken) = self.taken.get(module) else {
            return Ok(());
        };
        let hidden = hidden_of(alloc, table, taken)?;
        table.hidden = hidden;
        Ok(())
    }
}

fn hidden_of(alloc: Global, table: &Table, taken: &[Option<usize>]) -> Result<Vec<bool>, AllocError>
    ensures { IfOk result (λ hidden. IsHiding table.now.own taken.now hidden.items) }
{
    let defined = defined_in(alloc, table, taken)?;
    flags_of(alloc, table, taken, &defined)
}

fn flags_of(
    alloc: Global,
    table: &Table,
    taken: &[Option<usize>],
    defined: &IndexSet<(usize, usize)>,
) -> Result<Vec<bool>, AllocError>
    ensures long { IfOk result (λ hidden. length hidden.items ≡ length table.now.own) }
    ensures are { IfOk result (λ hidden. AreHidden table.now.own taken.now defined.now.keys hidden.items) }
{
    let mut hidden = Vec::new(alloc);
    for index in 0..table.own.list().len() {
        let flag = has_key(defined, key_at(table, taken, index, false));
        hidden.push(flag)?;
    }
    Ok(hidden)
}

/// The keys of the functions of a module.
fn defined_in(
    alloc: Global,
    table: &Table,
    taken: &[Option<usize>],
) -> Result<IndexSet<(usize, usize)>, AllocError>
    ensures { IfOk result (λ defined. AreDefined table.now.own taken.now (length table.now.own) defined.keys) }
{
    let mut defined = IndexSet::new(alloc);
    for index in 0..table.own.list().len() {
        note_key(&mut defined, key_at(table, taken, index, true))?;
    }
    Ok(defined)
}

fn note_key(
    defined: &mut IndexSet<(usize, usize)>,
    key: Option<(usize, usize)>,
) -> Result<(), AllocError>
    ensures { OnOk result (defined.new.keys ≡ with_key defined.old.keys key) }
{
    if let Some(key) = key {
        defined.insert(key)?;
    }
    Ok(())
}

fn has_key(defined: &IndexSet<(usize, usize)>, key: Option<(usize, usize)>) -> bool
    ensures { result ≡ has_key defined.now.keys key }
{
    match key {
        Some(key) => defined.contains(&key),
        None => false,
    }
}

/// The key of the entity of an index: the number of its name in its module, and of what it takes. None where it is no
/// function that is a definition, or no prototype, as it was asked for.
fn key_at(
    table: &Table,
    taken: &[Option<usize>],
    index: usize,
    definition: bool,
) -> Option<(usize, usize)>
    ensures { result ≡ key_at table.now.own taken.now (asked definition) index }
{
    match table.own.list().get(index) {
        Some(entity) => {
            if is_asked(entity.sort, definition) {
                key_of(table, index, taken_at(taken, index))
            } else {
                None
            }
        }
        None => None,
    }
}

fn is_asked(sort: Sort, definition: bool) -> bool
    ensures { result ≡ asked definition sort }
{
    if definition {
        is_definition(sort)
    } else {
        is_prototype(sort)
    }
}

fn key_of(table: &Table, index: usize, taken: Option<usize>) -> Option<(usize, usize)>
    ensures { (entity : Entity) → slice_get table.now.own index ≡ Some entity
        → result ≡ key_of table.now.own entity taken }
{
    match taken {
        Some(taken) => Some((table.own.number_at(index), taken)),
        None => None,
    }
}

pub fn taken_at(taken: &[Option<usize>], index: usize) -> Option<usize>
    ensures { result ≡ slice_index_or taken.now index None }
{
    match taken.get(index) {
        Some(taken) => *taken,
        None => None,
    }
}

/// Notes that the entity of this index is begun. False where it was noted before.
fn begin(begun: &mut [bool], index: usize) -> bool
    ensures { Begins begun.old index result begun.new }
{
    if index < begun.len() {
        let fresh = !begun[index];
        begun[index] = true;
        fresh
    } else {
        false
    }
}

fn takes_at<'a>(scene: Scene<'a>, place: Place) -> Option<Takes<'a>>
    ensures { result ≡ takes_at scene.entry.written.now place }
{
    match scene.written.get(place.module) {
        Some(written) => written.takes.get(place.index).copied(),
        None => None,
    }
}

fn known_types(alloc: Global, names: &[&str]) -> Result<Vec<Ty>, AllocError>
    ensures { IfOk result (λ types. types.items ≡ map plain (map (λ name. name.now) names.now)) }
{
    let mut types = Vec::new(alloc);
    for index in 0..names.len() {
        let ty = known_type(alloc, names[index])?;
        types.push(ty)?;
    }
    Ok(types)
}

fn known_type(alloc: Global, name: &str) -> Result<Ty, AllocError>
    ensures { IfOk result (λ ty. ty ≡ plain name.now) }
{
    let name = Text::copy(alloc, name)?;
    Ok(Ty {
        name,
        shape: Shape::One,
    })
}

fn is_same_place(one: Place, other: Place) -> bool
    ensures { result ≡ same_place one other }
{
    one.module == other.module && one.index == other.index
}

fn is_same_number(one: Option<usize>, other: Option<usize>) -> bool
    ensures { result ≡ same_number one other }
{
    match (one, other) {
        (None, None) => true,
        (Some(one), Some(other)) => one == other,
        _ => false,
    }
}

fn is_definition(sort: Sort) -> bool
    ensures { result ≡ is_definition sort }
{
    match sort {
        Sort::Function => true,
        Sort::Material
        | Sort::Intrinsic
        | Sort::Struct
        | Sort::Enum
        | Sort::EnumValue
        | Sort::Annotation => false,
    }
}

pub fn is_prototype(sort: Sort) -> bool
    ensures { result ≡ is_prototype sort }
{
    match sort {
        Sort::Intrinsic => true,
        Sort::Material
        | Sort::Function
        | Sort::Struct
        | Sort::Enum
        | Sort::EnumValue
        | Sort::Annotation => false,
    }
}

/// Whether a variant can stand on an entity.
fn is_base(tables: &[Table], scene: Scene, place: Place) -> bool
    ensures { result ≡ is_base_at tables.now scene.entry.written.now place }
{
    match entity_at(tables, place) {
        Some(entity) => is_callable(entity.sort) && !takes_deferred(scene, place),
        None => false,
    }
}

fn takes_deferred(scene: Scene, place: Place) -> bool
    ensures { result ≡ defers (takes_at scene.entry.written.now place) }
{
    match takes_at(scene, place) {
        Some(takes) => has_deferred(takes),
        None => false,
    }
}

fn is_callable(sort: Sort) -> bool
    ensures { result ≡ is_callable sort }
{
    match sort {
        Sort::Material | Sort::Function | Sort::Intrinsic | Sort::Struct => true,
        Sort::Enum | Sort::EnumValue | Sort::Annotation => false,
    }
}

fn has_deferred(takes: Takes) -> bool
    ensures { result ≡ has_deferred (takes_of takes.entry) }
{
    match takes {
        Takes::Listed(params) => any_deferred(params),
        Takes::Known(_) => false,
        Takes::Based(_) => false,
    }
}

fn any_deferred(params: &[Param]) -> bool
    ensures { result ≡ list_any (λ param. is_deferred param.ty.size) params.now }
{
    params.iter().any(|param| is_deferred(param))
}

fn is_deferred(param: &Param) -> bool
    ensures { result ≡ is_deferred param.now.ty.size }
{
    match param.ty.size {
        Size::Deferred(_) => true,
        Size::One | Size::Sized(_) => false,
    }
}
