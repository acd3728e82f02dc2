//! Laws of paths and texts, in plain terms.
ghost use Rattle.hp_requests.specs.Laws.{AddressesAreSpelled, BlockPathsAreSpelled};

/// A path is a file of memory block N if and only if it is `memoryN/`, with N in decimal and below
/// 2^32, and the file's name.
pub fn block_paths_are_spelled()
    ensures { BlockPathsAreSpelled }
{}

/// A text is an address if and only if it is `0x` and 1 to 16 hexadecimal digits of either case;
/// the address is the number that they write.
pub fn addresses_are_spelled()
    ensures { AddressesAreSpelled }
{}
