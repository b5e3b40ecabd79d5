//! What holds of each input that is made. Each law is a function that does nothing and ensures it.
ghost use Rattle.exb_make.specs.GeneratedInputs.{MadeIsValid, ArrivesAtExternals};

/// Its setup is valid.
pub fn made_is_valid()
    ensures { MadeIsValid }
{}

/// No frame arrives anywhere but at an external port.
pub fn arrives_at_externals()
    ensures { ArrivesAtExternals }
{}
