ghost use Rattle.std.specs.Prelude.{List};
ghost use Rattle.module_set.specs.declared.module_name.ModuleName.{ModuleName};
ghost use Rattle.module_set.specs.Members.{Member};
ghost use Rattle.scope_core.specs.OneScopeFault.{OneScopeFault};

/// The law that modules have no fault of names or exactly one least one, and not both.
pub fn one_scope_fault()
    ensures { (names : List ModuleName) (members : List Member) → OneScopeFault names members }
{}
