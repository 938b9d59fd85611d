/// What was found for a command line, before anything is written.
#[derive(Drop)]
pub enum Answer {
    /// The text for the sink of answers.
    Text(Vec<u8>),
    /// The line of a refusal.
    Refused(Vec<u8>),
    /// The refusal of a module of a form that isn't built.
    NotBuilt,
    Usage,
    ReadFault,
    OutOfMemory,
}
