//! Text fields.

ghost use Rattle.std.specs.Prelude.{◌≡◌, true, false, MatchOption};
ghost use Rattle.st_oer.specs.Text.{is_utf8};

/// The bytes as a text, or `None` if they are not UTF-8. Does not allocate.
#[tactic(auto, using(crate::proofs::Texts::utf8_tests))]
pub fn utf8(bytes: &[u8]) -> Option<&str>
    ensures { MatchOption result (is_utf8 bytes.now ≡ false) (λ text. (is_utf8 bytes.now ≡ true) × (text.now ≡ bytes.now)) }
{
    match std::str::from_utf8(bytes) {
        Ok(text) => Some(text),
        Err(_) => None,
    }
}
