//! Laws over frames, and over the steps of the machine, for whatever calls are made and whatever
//! befalls the words on their way.
ghost use Rattle.std.specs.Prelude.{List};
ghost use Rattle.exb_ecp.specs.Calls.{Call, IsTold, KeepsSound};
ghost use Rattle.exb_ecp.specs.Frames.{WrittenIsRead};
ghost use Rattle.exb_ecp.specs.Line.{Step, InOrder, run, new_line};

/// Over every list of calls: what is sent is the payload of the last submit, with the next sequence
/// in turn (1 first, and 0 after 65,535), until it was stopped or acknowledged or twelve beats
/// passed. A beat answers SendAgain at the third, sixth and ninth beat since that submit, GaveUp at
/// the twelfth, and Nothing else. What was received last is the last request that came.
pub fn calls_are_told()
    ensures { (calls : List Call) → IsTold calls }
{}

/// The state of a new end is sound, and each call keeps it so: sequences are 16 bits, and what is
/// sent is that of the last submit, has had fewer than twelve beats, and has at most 1,024 bytes.
pub fn calls_keep_sound()
    ensures { KeepsSound }
{}

/// Over two directions that keep order and may lose and repeat, whatever the steps: what was handed
/// up is a subsequence of what was submitted, each item at most once. Where nothing was stopped or
/// given up it is a prefix, and all of it where nothing is sent.
pub fn stop_and_wait_in_order()
    ensures { (steps : List Step) → InOrder (run new_line steps) }
{}

/// A frame that is written is read again, as the header and the payload that it carries.
pub fn written_is_read()
    ensures { WrittenIsRead }
{}
