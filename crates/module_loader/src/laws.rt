ghost use Rattle.std.specs.Prelude.{List};
ghost use Rattle.module_set.specs.declared.module_name.ModuleName.{ModuleName};
ghost use Rattle.module_loader.specs.Files.{Packages};
ghost use Rattle.module_loader.specs.OneLoad.{OneLoad};

use module_grammar::one_module_reading;

/// The law that files have one set of modules for the names that are asked for, or one fault, and not both.
pub fn one_load()
    ensures { (packages : Packages) (first : List ModuleName) → OneLoad packages first }
{
    one_module_reading();
}
