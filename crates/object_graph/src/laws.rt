ghost use Rattle.object_graph.specs.Laws.{ObjectsDisjoint, ObjectsOffCode, DataOffCode, DataWordsLead, HighSitesLead, LowSitesLead, LowStoresLead, PairedSitesLead, SitesDisjoint, OneObjectASite, OneOffsetASite};

/// Two objects that may move share no byte.
pub fn objects_disjoint()
    ensures { ObjectsDisjoint }
{}

/// No byte of an object that may move is a byte of code, in a file in which no check fails.
pub fn objects_off_code()
    ensures { ObjectsOffCode }
{}

/// No byte of a word of data that leads to an object that may move is a byte of code, in such a file.
pub fn data_off_code()
    ensures { DataOffCode }
{}

/// A word of data (32) that leads to an object that may move holds its home and a displacement of at most its
/// size.
pub fn data_words_lead()
    ensures { DataWordsLead }
{}

/// A word changed by HI20 that leads to an object that may move is a LUI of the upper part of that address.
pub fn high_sites_lead()
    ensures { HighSitesLead }
{}

/// A word changed by LO12_I that does is an ADDI or a load with the lower part.
pub fn low_sites_lead()
    ensures { LowSitesLead }
{}

/// A word changed by LO12_S that does is a store with the lower part.
pub fn low_stores_lead()
    ensures { LowStoresLead }
{}

/// A word changed by PCREL_HI20 that does is an AUIPC of the upper part of the distance, and all words changed by
/// PCREL_LO12_I and PCREL_LO12_S that name it have the lower part.
pub fn paired_sites_lead()
    ensures { PairedSitesLead }
{}

/// No two relocations make the address of an object that may move at the same word.
pub fn sites_disjoint()
    ensures { SitesDisjoint }
{}

/// One relocation gives a site of at most one object that may move.
pub fn one_object_a_site()
    ensures { OneObjectASite }
{}

/// A site leads to one place of its object.
pub fn one_offset_a_site()
    ensures { OneOffsetASite }
{}
