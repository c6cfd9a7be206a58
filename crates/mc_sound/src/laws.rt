//! What follows from the definitions of faults, whatever the code is.
ghost use Rattle.mc_sound.specs.Laws.{LackIsNotAdmitted, LeastIsOne, NoFlagsNoFaults, PrefixesCostLess, SentIsAdmitted, SoundIsAdmitted};
ghost use Rattle.mc_sound.specs.Laws.{SoundIsRight};

/// Code without flags has no fault of flags.
pub fn no_flags_no_faults()
    ensures { NoFlagsNoFaults }
{}

/// The first of some calls cost no more than all of them.
pub fn prefixes_cost_less()
    ensures { PrefixesCostLess }
{}

/// The sections of sound code come to nothing wrong.
pub fn sound_is_right()
    ensures { SoundIsRight }
{}

/// Code has a fault of flags exactly where calls along some interleaving, and a send that they lead to, aren't admitted.
pub fn lack_is_not_admitted()
    ensures { LackIsNotAdmitted }
{}

/// The calls of sound code find the flags as they need them.
pub fn sound_is_admitted()
    ensures { SoundIsAdmitted }
{}

/// What the sections of sound code may have sent finds the flags as it needs them, in every merge, whether answered or not.
pub fn sent_is_admitted()
    ensures { SentIsAdmitted }
{}

/// Code has one least fault at most, and has none where it is sound.
pub fn least_is_one()
    ensures { LeastIsOne }
{}
