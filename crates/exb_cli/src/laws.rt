//! What holds of the words that are accepted, in other words than those of their definition. Each
//! law is a function that does nothing and ensures it.
ghost use Rattle.exb_cli.specs.Laws.{OrderIsFree, DashesEndOptions, WrittenIsRead};

/// What is asked for is told by the first word, and by what the others say and how often, not by
/// their order: options may stand anywhere around the name.
pub fn order_is_free()
    ensures { OrderIsFree }
{}

/// Behind `--` each word is a name, also one that begins with `-`.
pub fn dashes_end_options()
    ensures { DashesEndOptions }
{}

/// What is asked for can be written, and what is written is accepted as that.
pub fn written_is_read()
    ensures { WrittenIsRead }
{}
