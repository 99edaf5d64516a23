//! Laws of the definitions: each map is determined by its value at each number.

ghost use Rattle.st_streams.specs.Laws.{BytesArePutPointwise, SameIsPutPointwise, TableIsPointwise};

/// The table of a function is the one map that has the function's values at the numbers of the table, and no others.
pub fn table_is_pointwise()
    ensures { TableIsPointwise }
{}

/// Putting bytes into a map gives it these bytes from their first number on. Its other values stay.
pub fn bytes_are_put_pointwise()
    ensures { BytesArePutPointwise }
{}

/// Putting one value into a map at a range of numbers gives it that value there. Its other values stay.
pub fn same_is_put_pointwise()
    ensures { SameIsPutPointwise }
{}
