// The laws of the claim book. Each function's contract is one of them; the functions do nothing.
ghost use Rattle.claims.specs.ClaimLaws.{NoFileTwice, AsManyPlaces, FreedPlacesAreUsedAgain};

// No file is claimed at two places.
pub fn no_file_twice()
    ensures { NoFileTwice }
{}

// The book keeps its number of places.
pub fn as_many_places()
    ensures { AsManyPlaces }
{}

// After a release, a file that nobody has can be claimed.
pub fn freed_places_are_used_again()
    ensures { FreedPlacesAreUsedAgain }
{}
