//! Of files there is one answer, where neither the shelf failed nor memory ran out. Each law is a
//! function that does nothing and ensures it.
ghost use Rattle.std.specs.Prelude.{◌≡◌, ℕ, List, Option};
ghost use Rattle.exb_audit.specs.Frames.{frames_by};
ghost use Rattle.exb_audit.specs.declared.frames.PortFrames.{PortFrames};
ghost use Rattle.exb_trace_spec.specs.JournalLines.{entry_in};
ghost use Rattle.exb_trace_spec.specs.TraceTexts.{read_line};
ghost use Rattle.exb_model.specs.Traces.{TraceLine};
ghost use Rattle.exb_shelf.specs.Files.{Files};
ghost use Rattle.exb_audit_files.specs.declared.port_files.FramesFault.{FramesFault};
ghost use Rattle.exb_audit_files.specs.declared.port_files.PortFile.{PortFile};
ghost use Rattle.exb_audit_files.specs.declared.texts.LinesFault.{LinesFault};
ghost use Rattle.exb_audit_files.specs.FrameFiles.{AreRead, IsFirstFault, Reading};
ghost use Rattle.exb_audit_files.specs.Lines.{HoldsLines, IsJournal, IsLinesFault, IsTrace};

/// Files of frames are read, or have a first fault, and not both; the frames of each port are one
/// list, and the fault is one.
pub fn one_answer_of_frames()
    ensures frames { (read : Reading) (file : Files) (limit : ℕ) (files : List PortFile)
        (f g : List PortFrames) → AreRead read file limit files f → AreRead read file limit files g
        → frames_by f ≡ frames_by g }
    ensures apart { (read : Reading) (file : Files) (limit : ℕ) (files : List PortFile)
        (f : List PortFrames) (fault : FramesFault) → AreRead read file limit files f
        → IsFirstFault read file limit files fault → ⊥ }
    ensures fault { (read : Reading) (file : Files) (limit : ℕ) (files : List PortFile)
        (f g : FramesFault) → IsFirstFault read file limit files f
        → IsFirstFault read file limit files g → f ≡ g }
{}

/// A journal is read, or has a fault, and not both; its lines are one list, and the fault is one.
pub fn one_answer_of_journals()
    ensures lines { (limit : ℕ) (file : Option (List ℕ)) (x y : List (List ℕ))
        → HoldsLines IsJournal limit file x → HoldsLines IsJournal limit file y → x ≡ y }
    ensures apart { (limit : ℕ) (file : Option (List ℕ)) (lines : List (List ℕ))
        (fault : LinesFault) → HoldsLines IsJournal limit file lines
        → IsLinesFault entry_in limit file fault → ⊥ }
    ensures fault { (limit : ℕ) (file : Option (List ℕ)) (f g : LinesFault)
        → IsLinesFault entry_in limit file f → IsLinesFault entry_in limit file g → f ≡ g }
{}

/// So does a trace.
pub fn one_answer_of_traces()
    ensures lines { (limit : ℕ) (file : Option (List ℕ)) (x y : List TraceLine)
        → HoldsLines IsTrace limit file x → HoldsLines IsTrace limit file y → x ≡ y }
    ensures apart { (limit : ℕ) (file : Option (List ℕ)) (lines : List TraceLine)
        (fault : LinesFault) → HoldsLines IsTrace limit file lines
        → IsLinesFault read_line limit file fault → ⊥ }
    ensures fault { (limit : ℕ) (file : Option (List ℕ)) (f g : LinesFault)
        → IsLinesFault read_line limit file f → IsLinesFault read_line limit file g → f ≡ g }
{}
