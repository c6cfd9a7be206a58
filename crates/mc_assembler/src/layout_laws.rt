//! What follows from the definition of layout, whatever the script is.
ghost use Rattle.mc_assembler.specs.LayoutLaws.{CodesAgree, EntriesAreLegal, LayoutsLeadForwards};

/// Each instruction of laid-out code leads to later places of its section alone.
pub fn layouts_lead_forwards()
    ensures { LayoutsLeadForwards }
{}

/// A send of laid-out code has no entry for a class that its verb is never answered with.
pub fn entries_are_legal()
    ensures { EntriesAreLegal }
{}

/// Every script does the same as the code that it is laid out as.
pub fn codes_agree()
    ensures { CodesAgree }
{}
