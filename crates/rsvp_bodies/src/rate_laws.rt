//! Laws about the definitions that contracts cite. The functions do nothing: their contracts are the
//! laws.

ghost use Rattle.rsvp_bodies.specs.RateLaws.{RatesAreRoundedUp, RefusalsAreFair};

/// A word has a rate exactly where its number is not negative and is below 2^50, and the rate is then the
/// least whole number of bytes per second that is not below that number.
pub fn rates_mean_their_words()
    ensures rounded { RatesAreRoundedUp }
    ensures refused { RefusalsAreFair }
{}
