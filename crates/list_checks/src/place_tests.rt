ghost use Rattle.list_checks.specs.Tests.{PlaceIsFound, NonePasses};

/// A place that passes a test is found below any greater number.
pub fn place_is_found()
    ensures { PlaceIsFound }
{}

/// Where no place below a number is found to pass a test, each of them fails it.
pub fn none_passes()
    ensures { NonePasses }
{}
