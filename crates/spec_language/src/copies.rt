//! Laws about copies, reads and errands: each is exact, or refused.
ghost use Rattle.spec_language.specs.Copies.{CopiesAreExact, ReadsAreExact, PutsAreExact, GetsAreExact};
ghost use Rattle.spec_language.specs.Copies.{BodiesStayShort, OctetsAreTold, NoOctetsAreTold, LoginsMakeReady};
ghost use Rattle.spec_language.specs.Copies.{ReadyStays};

/// Proves that either COPY prints OK and the new file has the words of the version that was found, with the protection,
/// the mode and the moment that a new or superseding file gets, or it is refused and the files are those from before.
pub fn copies_are_exact()
    ensures { CopiesAreExact }
{}

/// Proves that a file that is read whole is printed as the words of the version that was found, or the line is refused.
/// TYPE prints their characters without nulls. The files stay. As bytes of eight bits, those bytes are printed whose
/// words these are; if no bytes have these words, the line is refused.
pub fn reads_are_exact()
    ensures reads { ReadsAreExact }
    ensures bytes { OctetsAreTold }
    ensures no_bytes { NoOctetsAreTold }
{}

/// Proves that a file that is put has the words that were read, or it is refused and the files are those from before;
/// and that a file that is got is printed as a file that is read whole.
pub fn errands_are_exact()
    ensures puts { PutsAreExact }
    ensures gets { GetsAreExact }
{}

/// Proves what these laws require of a state: no run that began with the files of a disk comes to a body that is longer
/// than a file may be, and job 1 is ready from its LOGIN.
pub fn states_stay_ready()
    ensures short { BodiesStayShort }
    ensures logged_in { LoginsMakeReady }
    ensures on { ReadyStays }
{}
