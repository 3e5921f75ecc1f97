// Values that words spell.
ghost use Rattle.std.specs.List.{find};
ghost use Rattle.std.specs.Prelude.{◌≡◌, ℕ, List};
ghost use Rattle.std.specs.Str.{bytes_eq};

// A type whose values are spelled by a word each.
pub trait Spelled: Copy + 'static {
    // How each value is spelled.
    ghost spelled: { Self → List ℕ };

    // All values, in the order in which a word is looked for among them.
    ghost values: { List Self };

    // Those values.
    fn all() -> &'static [Self]
        ensures { result.now ≡ values };

    // How a value is spelled.
    fn spelling(self) -> &'static str
        ensures { result.now ≡ spelled self };

    // The value that `word` spells, or `None` where it spells none.
    fn of(word: &[u8]) -> Option<Self>
        ensures { result ≡ find (λ value. bytes_eq word.now (spelled value)) values }
    {
        Self::all()
            .iter()
            .copied()
            .find(|value| word == value.spelling().as_bytes())
    }
}
