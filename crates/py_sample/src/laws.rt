//! The law of made programs. Its body does nothing.
ghost use Rattle.py_sample.specs.Laws.{SamplesAreFaultless};

/// No made program has a fault, in any mode and at any level: each compiles, unless memory runs out.
pub fn samples_are_faultless()
    ensures { SamplesAreFaultless }
{}
