//! That the files of a run don't meet. A law is a function that does nothing and ensures it.
ghost use Rattle.std.specs.Prelude.{◌≡◌, List, ℕ};
ghost use Rattle.exb_journal.specs.FileNames.{file_name, IsOfPort};
ghost use Rattle.exb_journal.specs.declared.file_names.OutputKind.{OutputKind};

/// Under one prefix, all files have different names: those of different ports, the journal, the
/// trace and the counters.
pub fn file_names_differ()
    ensures { (prefix : List ℕ) (x y : OutputKind) → IsOfPort x → IsOfPort y
        → file_name prefix x ≡ file_name prefix y → x ≡ y }
{}
