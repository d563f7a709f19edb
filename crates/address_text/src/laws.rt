//! Laws of the definitions. Each function's contract is the law; its body does nothing.

ghost use Rattle.address_text.specs.Written.{DatapathIdsAreAsWritten, HardwareAddressesAreAsWritten, PrefixesAreAsWritten};

/// Network addresses, hardware addresses and datapath ids are read exactly where the text is the one that
/// is printed for an address with its leading bits, or for a number. So the text has no leading zero, no
/// digit in upper case, and nothing before or behind. All 32 leading bits may be left out.
pub fn addresses_are_as_written()
    ensures prefix { PrefixesAreAsWritten }
    ensures hardware { HardwareAddressesAreAsWritten }
    ensures datapath { DatapathIdsAreAsWritten }
{}
