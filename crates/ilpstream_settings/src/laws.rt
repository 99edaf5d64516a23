//! Laws of a connector's table, over the definitions alone. The functions do nothing: the contracts are the laws.

ghost use Rattle.std.specs.Prelude.{◌≡◌, List, map};
ghost use Rattle.std.specs.Str.Lines.{lines};
ghost use Rattle.st_hop.specs.Seen.{way_seen};
ghost use Rattle.st_hop.specs.declared.route.Route.{Route};
ghost use Rattle.ilpstream_settings.specs.declared.line.AccountLine.{AccountLine};
ghost use Rattle.ilpstream_settings.specs.Table.{AreDistinct, HasBad, HasSameName, Says, Text, names_of};

/// Lines say one table: the same names, terms and routes, in their order.
pub fn lines_say_one_table()
    ensures { (ls : List Text) (xs ys : List AccountLine) (rs qs : List Route) → Says ls xs rs → Says ls ys qs
        → (names_of xs ≡ names_of ys) × (map (λ x. x.terms) xs ≡ map (λ x. x.terms) ys) × (map way_seen rs ≡ map way_seen qs) }
{}

/// A text with a bad line, or with two accounts of one name, says no table whose accounts have names of their own.
pub fn a_bad_text_says_no_table()
    ensures bad { (text : Text) (xs : List AccountLine) (rs : List Route) → HasBad text → Says (lines text) xs rs → ⊥ }
    ensures same { (text : Text) (xs : List AccountLine) (rs : List Route) → HasSameName text → Says (lines text) xs rs → AreDistinct (names_of xs) → ⊥ }
{}
