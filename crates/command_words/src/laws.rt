ghost use Rattle.std.specs.Prelude.{ℕ, List};
ghost use Rattle.command_words.specs.OneRequest.{OneRequest};

/// The law that words are one request, or none.
pub fn one_request()
    ensures { (words : List (List ℕ)) → OneRequest words }
{}
