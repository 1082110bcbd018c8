// Small types whose values can all be listed.
ghost use Rattle.std.specs.Prelude.{◌≡◌, List, Contains};

// A type whose values stand in a list of `N`.
pub trait Listed<const N: usize>: Sized {
    ghost list: { List Self };

    fn all() -> [Self; N]
        ensures { result ≡ list };

    // no value is missing
    ghost each: { (x : Self) → Contains list x };
}
