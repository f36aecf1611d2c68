//! Which heading stands where. Each law is the contract of a function that does nothing.

ghost use Rattle.std.specs.Prelude.{◌≡◌, map};
ghost use Rattle.lsr_explain.specs.Headings.{errors, failed_heading, headings_of, refused_heading, refusals, run_faults};
ghost use Rattle.lsr_explain.specs.declared.topics.Kind.TheVariants as kinds;

/// The topics of refusals are headed by their numbers and names, in this order; those of errors by their codes, values and
/// names; those of faults of recorded runs by these.
pub fn headings_are_told()
    ensures refusals { headings_of kinds.Refusal ≡ map refused_heading refusals }
    ensures errors { headings_of kinds.RsvpError ≡ map failed_heading errors }
    ensures run_faults { headings_of kinds.RunFault ≡ run_faults }
{}
