//! Laws of the definitions. Each is the contract of a function that does nothing.

ghost use Rattle.hf_table.specs.Laws.{EachIsNumbered, OrderIsFree, OnePlaceMore, UsesAreTheTable, LimitsLeaveRoom, TablesAreAlike, PlacesAreThere};

/// The table of some properties has each of them, at its number.
pub fn each_property_is_numbered()
    ensures { EachIsNumbered }
{}

/// Permutations of a list have tables of one length and one sum of sizes.
pub fn order_is_free()
    ensures { OrderIsFree }
{}

/// One place more makes a table longer by one, or not at all.
pub fn one_place_more()
    ensures { OnePlaceMore }
{}

/// Uses that tally a list have as many properties as its table, and the same sum of sizes.
pub fn uses_are_the_table()
    ensures { UsesAreTheTable }
{}

/// Within the limits of a store there is room for the properties of one item.
pub fn limits_leave_room()
    ensures { LimitsLeaveRoom }
{}

/// Tables of the same lists say the same.
pub fn tables_are_alike()
    ensures { TablesAreAlike }
{}

/// A table has a number for each property of its lists.
pub fn places_are_there()
    ensures { PlacesAreThere }
{}
