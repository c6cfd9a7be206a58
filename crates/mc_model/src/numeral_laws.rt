//! Which bodies say a number. The function here does nothing: its contract is a law over `specs/Numeral.antt`, and
//! `numeral_of` does what that file says.

ghost use Rattle.mc_model.specs.NumeralLaws.{WillingReads, StrictReads};

/// A server that reads all that it may reads the bodies that begin with a number of 64 bits, and then end or go on with
/// a space. One that reads only what it must reads the bodies of up to 20 digits and then nothing but spaces.
pub fn bodies_say_numbers()
    ensures willing { WillingReads }
    ensures strict { StrictReads }
{}
