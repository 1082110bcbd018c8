// Looking up by number.
ghost use Rattle.std.specs.Prelude.{◌≡◌, ℕ};
ghost use Rattle.book.specs.Lookup.{Placed};

// What carries a number.
pub trait Numbered {
    ghost number: { Self → ℕ };

    fn number(&self) -> u32
        ensures { result ≡ number self.now };
}

// The place of the first member with this number.
pub fn place<T: Numbered>(list: &[T], number: u32) -> Option<usize>
    ensures { Placed T.number list.now number result }
{
    list.iter().position(|member| member.number() == number)
}
