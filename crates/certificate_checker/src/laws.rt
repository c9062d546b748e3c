ghost use Rattle.certificate_checker.specs.Laws.{ShownIsLeast, OneAnswer, ReadsSpelled, OneCertificate, OneText};

/// No feasible choice has less energy than one that a certificate shows to be best.
pub fn shown_is_least()
    ensures { ShownIsLeast }
{}

/// A certificate has one answer: each comes exactly where it holds.
pub fn one_answer()
    ensures { OneAnswer }
{}

/// What is read is what the bytes spell, both ways.
pub fn reads_spelled()
    ensures { ReadsSpelled }
{}

/// Bytes spell at most one certificate.
pub fn one_certificate()
    ensures { OneCertificate }
{}

/// A certificate has one spelling.
pub fn one_text()
    ensures { OneText }
{}
