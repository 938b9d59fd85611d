ghost use Rattle.std.specs.Prelude.{◌≡◌, List, ℕ};
ghost use Rattle.case_table.specs.Lists.{Tells};
ghost use Rattle.module_set.specs.Names.{same_name};
ghost use Rattle.module_set.specs.Cycles.{IsFirstCycle};

/// The law that the test of names finds equal ones the same, and no others.
pub fn same_names_are_one()
    ensures { Tells same_name }
{}

/// The law that of several cycles one is the first.
pub fn one_first_cycle()
    ensures { (links : List (List ℕ)) (one other : List ℕ) → IsFirstCycle links one → IsFirstCycle links other →
        one ≡ other }
{}
