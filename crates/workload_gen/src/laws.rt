ghost use Rattle.workload_gen.specs.Readable.{ReadsBack};

/// What is read of a built file is what was planned: segments, sections, symbols and relocations.
pub fn reads_back()
    ensures { ReadsBack }
{}
