//! Laws of the definitions: what becomes of a key.
ghost use Rattle.key_table.specs.Laws.{KnownAreFound, NewArePut};

/// A key that is among the keys is found at its own place, and is not put again.
pub fn known_keys_are_found()
    ensures { KnownAreFound }
{}

/// A key that is not among the keys is put at the end, and this is its place. Then no key is there twice.
pub fn new_keys_are_put()
    ensures { NewArePut }
{}
